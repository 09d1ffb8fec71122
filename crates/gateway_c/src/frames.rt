// Frames, and which header a message has. The rows are those of gateway_frame/src/request.rt and response.rt.
ghost use Rattle.std.specs.Prelude.{◌≡◌, [], ◌∷◌, pos};
ghost use Rattle.layout.specs.Frames.{frame_read, frame_written};
ghost use Rattle.layout.specs.Messages.Headers as Headers;
ghost use Rattle.layout.specs.Messages.Headers.{request_number, response_number};
ghost use Rattle.gateway.specs.Replies.{numbers, told};
ghost use Rattle.gateway_frame.specs.Replies.{request_frame_numbers, request_row, response_frame_numbers, response_row};

use gateway::Numbers;
use gateway_frame::{RequestFrameNumbers, ResponseFrameNumbers, chosen, request, response};

#[unsafe(no_mangle)]
pub extern "C" fn befrolan_request_number(key: i64, version: i64) -> i64
    ensures { result ≡ pos (request_number key version) }
{
    chosen::befrolan_request_number(key, version)
}

#[unsafe(no_mangle)]
pub extern "C" fn befrolan_response_number(key: i64, version: i64) -> i64
    ensures { result ≡ pos (response_number key version) }
{
    chosen::befrolan_response_number(key, version)
}

#[unsafe(no_mangle)]
pub extern "C" fn befrolan_read_request_frame(
    msg: &[u8],
    header: i64,
    tags: &mut [u64],
) -> RequestFrameNumbers
    ensures { (result, tags.new ∷ []) ≡ told request_frame_numbers (frame_read Headers.request header (tags.old ∷ []) msg.now) }
{
    request::befrolan_read_request_frame(msg, header, tags)
}

#[unsafe(no_mangle)]
pub extern "C" fn befrolan_read_response_frame(
    msg: &[u8],
    header: i64,
    tags: &mut [u64],
) -> ResponseFrameNumbers
    ensures { (result, tags.new ∷ []) ≡ told response_frame_numbers (frame_read Headers.response header (tags.old ∷ []) msg.now) }
{
    response::befrolan_read_response_frame(msg, header, tags)
}

// `row` is the header's row; `tags` is the table; client name and data are parts of `lent`; `body` goes into the frame as it is.
#[unsafe(no_mangle)]
pub extern "C" fn befrolan_write_request_frame(
    out: &mut [u8],
    header: i64,
    lent: &[u8],
    row: &[u64; 7],
    tags: &[u64],
    body: &[u8],
) -> Numbers
    ensures { (result, out.new) ≡ told numbers (frame_written Headers.request header lent.now (request_row row.now ∷ tags.now ∷ []) body.now out.old) }
{
    request::befrolan_write_request_frame(out, header, lent, row, tags, body)
}

// `row` is the header's row; `tags` is the table, with data in `lent`; `body` goes into the frame as it is.
#[unsafe(no_mangle)]
pub extern "C" fn befrolan_write_response_frame(
    out: &mut [u8],
    header: i64,
    lent: &[u8],
    row: &[u64; 2],
    tags: &[u64],
    body: &[u8],
) -> Numbers
    ensures { (result, out.new) ≡ told numbers (frame_written Headers.response header lent.now (response_row row.now ∷ tags.now ∷ []) body.now out.old) }
{
    response::befrolan_write_response_frame(out, header, lent, row, tags, body)
}
