// Frames, read. The size decides which bytes are the frame's; the header is read from these alone, and the rest of them is the body.
ghost use Rattle.std.specs.Prelude.{◌≡◌, false, [], ◌∷◌, ◌≤◌};
ghost use Rattle.layout.specs.Answers.{shape};
ghost use Rattle.layout.specs.Frames.{frame_read, frame_size};
ghost use Rattle.layout.specs.Messages.Headers as Headers;
ghost use Rattle.primitives.specs.Answers.{of_number};
ghost use Rattle.body_reading.specs.Store.{tab};
ghost use Rattle.body_reading.specs.Walk.{Runs, on, row_from, walk};
ghost use Rattle.frame.specs.Answers.{of_request_frame, of_response_frame};
ghost use Rattle.frame.specs.Walks.{front_shape, of_front, of_request_walked, of_response_walked};

use crate::{Frame, RequestFrame, RequestHeader, ResponseFrame, ResponseHeader};
use body_reading::places::{int16_at, int32_at};
use body_reading::versioned::nullable_string_if;
use primitives::{
    BAD_SIZE, BYTES_END, Field, MINUS_ONE, MOST, NO_VERSION, Read, Refusal, Span, Taken, at,
    no_room, numbers, version_of,
};
use tagged_fields::reading::tags_if;

// The size, and the end of the whole frame: the size's own four bytes are not counted in it.
fn frame_size(s: &[u8]) -> Read<u64>
    ensures { of_number result ≡ frame_size s.now }
{
    let size = numbers::int32(s)?;
    // A size below 0 is a cell far over the limit.
    if (MOST as u64) < size.value {
        return Err(at(BAD_SIZE, 0));
    }
    let end = size.next + size.value as usize;
    if s.len() < end {
        return Err(at(BYTES_END, 0));
    }
    Ok(Taken {
        value: size.value,
        next: end,
    })
}

// What a walk over a header comes to: the header, the place after it, and the mark of the tags' table.
#[derive(Clone, Copy)]
pub struct HeaderAt<H> {
    pub header: H,
    pub next: usize,
    pub mark: usize,
}

// ---- requests

// What both request headers have before the tags.
#[derive(Clone, Copy)]
pub struct Fields {
    pub request_api_key: u64,
    pub request_api_version: u64,
    pub correlation_id: u64,
    pub client_id: Field,
}

// The fields start after the size.
fn front_of(frame: &[u8]) -> Read<Fields>
    ensures { of_front result ≡ on (row_from [] front_shape) frame.now 4 }
{
    let key = int16_at(frame, 4)?;
    let version = int16_at(frame, key.next)?;
    let correlation = int32_at(frame, version.next)?;
    let client = nullable_string_if(frame, correlation.next, true)?;
    Ok(Taken {
        value: Fields {
            request_api_key: key.value,
            request_api_version: version.value,
            correlation_id: correlation.value,
            client_id: client.value,
        },
        next: client.next,
    })
}

fn request_header(
    frame: &[u8],
    number: u64,
    table: &mut [u64],
) -> Result<HeaderAt<RequestHeader>, Refusal>
    requires { (1 ≤ number) × (number ≤ 2) }
    ensures { Runs (λ t. walk false (shape (Headers.request).rows number) 0) frame.now 4 (λ t. t ∷ tab table.old 0 ∷ []) (of_request_walked table.new result) }
{
    let Taken { value, next } = front_of(frame)?;
    let tags = tags_if(frame, next, 2 <= number, table, 0)?;
    Ok(HeaderAt {
        header: RequestHeader {
            request_api_key: value.request_api_key,
            request_api_version: value.request_api_version,
            correlation_id: value.correlation_id,
            client_id: value.client_id,
            tags: tags.count,
        },
        next: tags.next,
        mark: tags.mark,
    })
}

// The frame at the front of `s`, with request header 1 or 2. The tags' rows go to the table from its start on, three cells each; after a refusal the table is as it was.
pub fn read_request(s: &[u8], number: i64, tags: &mut [u64]) -> RequestFrame
    ensures { (of_request_frame result, tags.new ∷ []) ≡ frame_read Headers.request number (tags.old ∷ []) s.now }
{
    let h = version_of(number);
    if h < 1 {
        return Err(at(NO_VERSION, 0));
    }
    if 2 < h {
        return Err(at(NO_VERSION, 0));
    }
    let all = frame_size(s)?.next;
    let frame = &s[..all];
    // Over no room the walk measures.
    let request = request_header(frame, h, &mut tags[..0])?;
    let body = Span {
        start: request.next,
        len: all - request.next,
    };
    let took = Taken {
        value: Frame {
            header: request.header,
            body,
        },
        next: all,
    };
    // With no tags there is nothing to store.
    if request.mark == 0 {
        return Ok(took);
    }
    if tags.len() / 3 < request.mark / 3 {
        return Err(no_room(request.mark / 3));
    }
    let _ = request_header(frame, h, tags);
    Ok(took)
}

// ---- responses
// Requests and responses have a reader each. One for both would take the walk over a header as a closure, with its law: that is no plainer.

fn response_header(
    frame: &[u8],
    number: u64,
    table: &mut [u64],
) -> Result<HeaderAt<ResponseHeader>, Refusal>
    requires { number ≤ 1 }
    ensures { Runs (λ t. walk false (shape (Headers.response).rows number) 0) frame.now 4 (λ t. t ∷ tab table.old 0 ∷ []) (of_response_walked table.new result) }
{
    let correlation = int32_at(frame, 4)?;
    // The commonest header, which all responses here have, needs no call for its tags.
    if number < 1 {
        return Ok(HeaderAt {
            header: ResponseHeader {
                correlation_id: correlation.value,
                tags: MINUS_ONE,
            },
            next: correlation.next,
            mark: 0,
        });
    }
    let tags = tags_if(frame, correlation.next, 1 <= number, table, 0)?;
    Ok(HeaderAt {
        header: ResponseHeader {
            correlation_id: correlation.value,
            tags: tags.count,
        },
        next: tags.next,
        mark: tags.mark,
    })
}

// The same with response header 0 or 1.
pub fn read_response(s: &[u8], number: i64, tags: &mut [u64]) -> ResponseFrame
    ensures { (of_response_frame result, tags.new ∷ []) ≡ frame_read Headers.response number (tags.old ∷ []) s.now }
{
    let h = version_of(number);
    if 1 < h {
        return Err(at(NO_VERSION, 0));
    }
    let all = frame_size(s)?.next;
    let frame = &s[..all];
    // Over no room the walk measures.
    let response = response_header(frame, h, &mut tags[..0])?;
    let body = Span {
        start: response.next,
        len: all - response.next,
    };
    let took = Taken {
        value: Frame {
            header: response.header,
            body,
        },
        next: all,
    };
    // With no tags there is nothing to store.
    if response.mark == 0 {
        return Ok(took);
    }
    if tags.len() / 3 < response.mark / 3 {
        return Err(no_room(response.mark / 3));
    }
    let _ = response_header(frame, h, tags);
    Ok(took)
}
