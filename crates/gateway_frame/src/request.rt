// Frames with request header 1 or 2: the header's row is API key, version, correlation number, client name (kind, start, length) and the number of tags.
ghost use Rattle.std.specs.Prelude.{◌≡◌, [], ◌++◌, ◌∷◌};
ghost use Rattle.layout.specs.Answers.{accepted};
ghost use Rattle.layout.specs.Frames.{frame_read, frame_written};
ghost use Rattle.layout.specs.Messages.Headers as Headers;
ghost use Rattle.body_reading.specs.Cells.{field_cells};
ghost use Rattle.frame.specs.Answers.{of_request, of_request_frame};
ghost use Rattle.gateway.specs.Replies.{numbers, told};
ghost use Rattle.gateway_frame.specs.Replies.{client_row, request_frame_numbers, request_row};

use crate::RequestFrameNumbers;
use body_reading::cells;
use frame::{Frame, RequestFrame, RequestHeader};
use gateway::{Numbers, written};
use primitives::{Field, Span, Taken};

fn accepted(frame: Frame<RequestHeader>, used: usize) -> RequestFrameNumbers
    ensures { result ≡ request_frame_numbers (accepted (of_request frame.header ++ (frame.body.start ∷ frame.body.len ∷ [])) used) }
{
    let header = frame.header;
    let client = header.client_id;
    RequestFrameNumbers {
        answer: gateway::accepted(used),
        request_api_key: header.request_api_key,
        request_api_version: header.request_api_version,
        correlation_id: header.correlation_id,
        client_id_kind: cells::field_kind(client),
        client_id_start: cells::field_start(client),
        client_id_length: cells::field_length(client),
        tags: header.tags,
        body_start: frame.body.start as u64,
        body_length: frame.body.len as u64,
    }
}

// What a reader answers, as numbers.
fn reply(r: RequestFrame) -> RequestFrameNumbers
    ensures { result ≡ request_frame_numbers (of_request_frame r) }
{
    match r {
        Ok(Taken { value, next }) => accepted(value, next),
        Err(e) => RequestFrameNumbers {
            answer: gateway::refused(e),
            request_api_key: 0,
            request_api_version: 0,
            correlation_id: 0,
            client_id_kind: 0,
            client_id_start: 0,
            client_id_length: 0,
            tags: 0,
            body_start: 0,
            body_length: 0,
        },
    }
}

pub fn befrolan_read_request_frame(msg: &[u8], header: i64, tags: &mut [u64]) -> RequestFrameNumbers
    ensures { (result, tags.new ∷ []) ≡ told request_frame_numbers (frame_read Headers.request header (tags.old ∷ []) msg.now) }
{
    reply(frame::read_request(msg, header, tags))
}

// ---- written

// Kind 0 is unset and 1 null, any other present.
fn client_of(kind: u64, start: u64, length: u64) -> Field
    ensures { field_cells result ≡ client_row kind start length }
{
    match kind {
        0 => Field::Absent,
        1 => Field::Null,
        _ => Field::Present(Span {
            start: start as usize,
            len: length as usize,
        }),
    }
}

fn header_of(row: &[u64; 7]) -> RequestHeader
    ensures { of_request result ≡ request_row row.now }
{
    RequestHeader {
        request_api_key: row[0],
        request_api_version: row[1],
        correlation_id: row[2],
        client_id: client_of(row[3], row[4], row[5]),
        tags: row[6],
    }
}

// `row` is the header's row; `tags` is the table; client name and data are parts of `lent`; `body` goes into the frame as it is.
pub fn befrolan_write_request_frame(
    out: &mut [u8],
    header: i64,
    lent: &[u8],
    row: &[u64; 7],
    tags: &[u64],
    body: &[u8],
) -> Numbers
    ensures { (result, out.new) ≡ told numbers (frame_written Headers.request header lent.now (request_row row.now ∷ tags.now ∷ []) body.now out.old) }
{
    written(frame::write_request(out, header, lent, header_of(row), tags, body))
}
