// Frames with response header 0 or 1: the header's row is correlation number and the number of tags.
ghost use Rattle.std.specs.Prelude.{◌≡◌, [], ◌++◌, ◌∷◌};
ghost use Rattle.layout.specs.Frames.{frame_read, frame_written};
ghost use Rattle.layout.specs.Messages.Headers as Headers;
ghost use Rattle.frame.specs.Answers.{of_response, of_response_frame};
ghost use Rattle.gateway.specs.Replies.{numbers, told};
ghost use Rattle.gateway_frame.specs.Replies.{response_frame_numbers, response_row};

use crate::ResponseFrameNumbers;
use frame::{ResponseFrame, ResponseHeader};
use gateway::{Numbers, written};
use primitives::Taken;

// What a reader answers, as numbers.
fn reply(r: ResponseFrame) -> ResponseFrameNumbers
    ensures { result ≡ response_frame_numbers (of_response_frame r) }
{
    match r {
        Ok(Taken { value, next }) => ResponseFrameNumbers {
            answer: gateway::accepted(next),
            correlation_id: value.header.correlation_id,
            tags: value.header.tags,
            body_start: value.body.start as u64,
            body_length: value.body.len as u64,
        },
        Err(e) => ResponseFrameNumbers {
            answer: gateway::refused(e),
            correlation_id: 0,
            tags: 0,
            body_start: 0,
            body_length: 0,
        },
    }
}

pub fn befrolan_read_response_frame(
    msg: &[u8],
    header: i64,
    tags: &mut [u64],
) -> ResponseFrameNumbers
    ensures { (result, tags.new ∷ []) ≡ told response_frame_numbers (frame_read Headers.response header (tags.old ∷ []) msg.now) }
{
    reply(frame::read_response(msg, header, tags))
}

// ---- written

fn header_of(row: &[u64; 2]) -> ResponseHeader
    ensures { of_response result ≡ response_row row.now }
{
    ResponseHeader {
        correlation_id: row[0],
        tags: row[1],
    }
}

// `row` is the header's row; `tags` is the table, with data in `lent`; `body` goes into the frame as it is.
pub fn befrolan_write_response_frame(
    out: &mut [u8],
    header: i64,
    lent: &[u8],
    row: &[u64; 2],
    tags: &[u64],
    body: &[u8],
) -> Numbers
    ensures { (result, out.new) ≡ told numbers (frame_written Headers.response header lent.now (response_row row.now ∷ tags.now ∷ []) body.now out.old) }
{
    written(frame::write_response(out, header, lent, header_of(row), tags, body))
}
