// The field of a header in which the place of a refusal lies. The fields begin after the four bytes of the frame's size.
ghost use Rattle.std.specs.Prelude.{◌≡◌, ◌≤◌, drop};
ghost use Rattle.layout.specs.Answers.{none_yet, shape};
ghost use Rattle.layout.specs.Messages.Headers as Headers;
ghost use Rattle.layout.specs.Names.{name_at, seek};
ghost use Rattle.layout.specs.Reading.{nowhere};
ghost use Rattle.primitives.specs.Answers.{of_refusal};
ghost use Rattle.body_reading.specs.Walk.{on};
ghost use Rattle.names.specs.Walks.{of_named, of_sought};

use names::fields::{int16, int32, nullable_string};
use names::tags::tags_if;
use names::{
    Found, Named, REQUEST_HEADER, RESPONSE_HEADER, Sought, is_fieldless, named_by, without_field,
};
use primitives::{MINUS_ONE, Refusal};

const SIZE: usize = 4;

const TAGS: usize = 1;

fn request(frame: &[u8], q: usize, number: u64, begun: &mut [u64]) -> Sought
    requires { (1 ≤ number) × (number ≤ 2) }
    ensures { of_sought begun.new result ≡ on (seek q (shape (Headers.request).rows number) nowhere 0 begun.old) frame.now 4 }
{
    let row = MINUS_ONE;
    let p = int16(frame, SIZE, q).ok_or(Found { row, field: 0 })?;
    let p = int16(frame, p, q).ok_or(Found { row, field: 1 })?;
    let p = int32(frame, p, q).ok_or(Found { row, field: 2 })?;
    let p = nullable_string(frame, p, q).ok_or(Found { row, field: 3 })?;
    tags_if(frame, p, q, 2 <= number, TAGS, row, 4, begun)
}

fn response(frame: &[u8], q: usize, number: u64, begun: &mut [u64]) -> Sought
    requires { number ≤ 1 }
    ensures { of_sought begun.new result ≡ on (seek q (shape (Headers.response).rows number) nowhere 0 begun.old) frame.now 4 }
{
    let row = MINUS_ONE;
    let p = int32(frame, SIZE, q).ok_or(Found { row, field: 0 })?;
    tags_if(frame, p, q, 1 <= number, TAGS, row, 1, begun)
}

// The refusal e of a frame, whose bytes are lent with its size, with its name.
pub(crate) fn with_request_name(e: Refusal, frame: &[u8], number: u64) -> Named
    requires { (1 ≤ number) × (number ≤ 2) }
    ensures { of_named result ≡ name_at 7 (shape (Headers.request).rows number) none_yet 4 (drop 4 frame.now) (of_refusal e) }
{
    if is_fieldless(e.number) {
        return without_field(e, REQUEST_HEADER);
    }
    if e.place < SIZE {
        return without_field(e, REQUEST_HEADER);
    }
    let mut begun = [0u64; 8];
    named_by(
        e,
        REQUEST_HEADER,
        request(frame, e.place, number, &mut begun),
    )
}

// The same with response header 0 or 1.
pub(crate) fn with_response_name(e: Refusal, frame: &[u8], number: u64) -> Named
    requires { number ≤ 1 }
    ensures { of_named result ≡ name_at 8 (shape (Headers.response).rows number) none_yet 4 (drop 4 frame.now) (of_refusal e) }
{
    if is_fieldless(e.number) {
        return without_field(e, RESPONSE_HEADER);
    }
    if e.place < SIZE {
        return without_field(e, RESPONSE_HEADER);
    }
    let mut begun = [0u64; 8];
    named_by(
        e,
        RESPONSE_HEADER,
        response(frame, e.place, number, &mut begun),
    )
}
