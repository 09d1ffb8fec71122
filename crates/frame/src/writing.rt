// Frames, written: the size in four bytes, the header, and the body as it is lent.
// One walk over header and body, run twice: over no room it only counts the bytes.
ghost use Rattle.std.specs.Prelude.{◌&&◌, cond, ◌≡◌, [], ◌++◌, ◌∷◌, pos, length, ◌/◌, ◌≤◌};
ghost use Rattle.layout.specs.Answers.{shape};
ghost use Rattle.layout.specs.Frames.{frame_written};
ghost use Rattle.layout.specs.Messages.Headers as Headers;
ghost use Rattle.layout.specs.Primitives.{holds, plain, w16, w32};
ghost use Rattle.layout.specs.Tables.{count, good, good_cells};
ghost use Rattle.primitives_put.specs.Answers.{replied};
ghost use Rattle.primitives_put.specs.Step.{Capped};
ghost use Rattle.body_reading.specs.Cells.{field_cells};
ghost use Rattle.body_reading.specs.Tagged.{tag_shape};
ghost use Rattle.body_writing.specs.Writes.{bytes_at, counted_bytes, refusal_of, row_bytes, row_fault};
ghost use Rattle.frame.specs.Answers.{of_request, of_response};
ghost use Rattle.frame.specs.Shapes.{client_field, client_shape, numbers_shape};

use crate::{RequestHeader, ResponseHeader};
use body_writing::ranges::{is_inside, part, string_fault};
use primitives::{
    BAD_TABLES, Field, MOST, NO_VERSION, TOO_LONG, TOO_WIDE, at, no_room, version_of,
};
use primitives_put::replies::fits;
use primitives_put::{Form, Written};
use tagged_fields::writing::{is_good, tag_buffer};

// ---- what is refused of a request header: 13, and then in field order 11 and 7

fn is_client_good(size: usize, client: Field) -> bool
    ensures { result ≡ good_cells size client_field (field_cells client) }
{
    match client {
        Field::Absent | Field::Null => true,
        Field::Present(name) => is_inside(size, name.start as u64, name.len as u64),
    }
}

// The same for both request headers: tags lent with one that has none are checked too.
fn is_request_good(size: usize, header: RequestHeader, tags: &[u64]) -> bool
    ensures { result ≡ good size 1 (shape (Headers.request).rows 0) (of_request header ∷ tags.now ∷ []) }
{
    is_client_good(size, header.client_id) && is_good(size, header.tags, tags)
}

fn numbers_fit(header: RequestHeader) -> bool
    ensures { result ≡ (holds w16 header.request_api_key && (holds w16 header.request_api_version && holds w32 header.correlation_id)) }
{
    fits(header.request_api_key, 32768)
        && fits(header.request_api_version, 32768)
        && fits(header.correlation_id, 2147483648)
}

// Null, as which an unset name is written, has no fault.
pub(crate) fn client_fault(lent: &[u8], client: Field) -> u8
    ensures { result ≡ row_fault lent.now client_shape (field_cells client) }
{
    match client {
        Field::Absent | Field::Null => 0,
        Field::Present(name) => string_fault(part(lent, name.start as u64, name.len as u64)),
    }
}

// 13, 11, 7, or 0 for none of them, as the definition `refusal_of` has it. Tags have no fault: a cell holds no more than a varint carries.
fn request_refusal(number: u64, lent: &[u8], header: RequestHeader, tags: &[u64]) -> u8
    requires { (1 ≤ number) × (number ≤ 2) }
    ensures { result ≡ refusal_of lent.now 1 (shape (Headers.request).rows 0) (shape (Headers.request).rows number) (of_request header ∷ tags.now ∷ []) }
{
    if !is_request_good(lent.len(), header, tags) {
        return BAD_TABLES;
    }
    if !numbers_fit(header) {
        return TOO_WIDE;
    }
    client_fault(lent, header.client_id)
}

// ---- the walk over a request header and a body

fn put_numbers(out: &mut [u8], header: RequestHeader) -> usize
    ensures { Capped (row_bytes [] numbers_shape (header.request_api_key ∷ header.request_api_version ∷ header.correlation_id ∷ [])) out.old result out.new }
{
    if 8 <= out.len() {
        primitives_put::lowest(out, header.request_api_key, 2);
        primitives_put::lowest(&mut out[2..], header.request_api_version, 2);
        primitives_put::lowest(&mut out[4..], header.correlation_id, 4);
    }
    8
}

// An unset name is written as null.
fn put_client(out: &mut [u8], lent: &[u8], client: Field) -> usize
    ensures { Capped (row_bytes lent.now client_shape (field_cells client)) out.old result out.new }
{
    match client {
        Field::Absent => primitives_put::null(out, Form::Int16),
        Field::Null => primitives_put::null(out, Form::Int16),
        Field::Present(name) => {
            let content = part(lent, name.start as u64, name.len as u64);
            primitives_put::sized(out, Form::Int16, content)
        }
    }
}

// The fields that both request headers have. Built into the walk, which runs twice, with fewer instructions than a call.
#[inline(always)]
fn put_fields(out: &mut [u8], lent: &[u8], header: RequestHeader) -> usize
    ensures { Capped (row_bytes [] numbers_shape (header.request_api_key ∷ header.request_api_version ∷ header.correlation_id ∷ []) ++ row_bytes lent.now client_shape (field_cells header.client_id)) out.old result out.new }
{
    let a = put_numbers(out, header);
    let p = primitives_put::behind(a, out.len());
    let b = put_client(&mut out[p..], lent, header.client_id);
    primitives_put::add(a, b)
}

// The end of every frame: the tags, where the header has them, and the body.
fn put_end(out: &mut [u8], tagged: bool, lent: &[u8], tags: &[u64], body: &[u8]) -> usize
    ensures { Capped (cond tagged (counted_bytes lent.now tag_shape plain 3 tags.now) [] ++ body.now) out.old result out.new }
{
    if !tagged {
        return primitives_put::raw(out, body);
    }
    let a = tag_buffer(out, lent, tags);
    let p = primitives_put::behind(a, out.len());
    let b = primitives_put::raw(&mut out[p..], body);
    primitives_put::add(a, b)
}

// As many tags are written as there are rows, so their count must say the same.
#[inline(always)]
fn put_request(
    out: &mut [u8],
    number: u64,
    lent: &[u8],
    header: RequestHeader,
    tags: &[u64],
    body: &[u8],
) -> usize
    requires { (1 ≤ number) × (number ≤ 2) × (count header.tags ≡ length tags.now / 3) }
    ensures { Capped (bytes_at lent.now (shape (Headers.request).rows number) 0 (of_request header ∷ tags.now ∷ []) ++ body.now) out.old result out.new }
{
    let a = put_fields(out, lent, header);
    let p = primitives_put::behind(a, out.len());
    let b = put_end(&mut out[p..], 2 <= number, lent, tags, body);
    primitives_put::add(a, b)
}

// ---- the call

// Measured and written, where nothing is refused of the header. The size does not count its own four bytes, but the room must hold them.
// A count over the limit is not exact: it is compared before four is added.
fn store_request(
    out: &mut [u8],
    number: u64,
    lent: &[u8],
    header: RequestHeader,
    tags: &[u64],
    body: &[u8],
) -> Written
    requires { (1 ≤ number) × (number ≤ 2) × (0 ≡ refusal_of lent.now 1 (shape (Headers.request).rows 0) (shape (Headers.request).rows number) (of_request header ∷ tags.now ∷ [])) }
    ensures { replied result out.new ≡ frame_written Headers.request (pos number) lent.now (of_request header ∷ tags.now ∷ []) body.now out.old }
{
    let all = put_request(&mut out[..0], number, lent, header, tags, body);
    if MOST < all {
        return Err(at(TOO_LONG, 0));
    }
    if out.len() < 4 + all {
        return Err(no_room(4 + all));
    }
    primitives_put::lowest(out, all as u64, 4);
    put_request(&mut out[4..], number, lent, header, tags, body);
    Ok(4 + all)
}

// A frame with request header 1 or 2. `tags` are rows of tag, and start and length of its data in `lent`; the client name is a part of `lent` too.
pub fn write_request(
    out: &mut [u8],
    number: i64,
    lent: &[u8],
    header: RequestHeader,
    tags: &[u64],
    body: &[u8],
) -> Written
    ensures { replied result out.new ≡ frame_written Headers.request number lent.now (of_request header ∷ tags.now ∷ []) body.now out.old }
{
    let h = version_of(number);
    if h < 1 {
        return Err(at(NO_VERSION, 0));
    }
    if 2 < h {
        return Err(at(NO_VERSION, 0));
    }
    let e = request_refusal(h, lent, header, tags);
    if e != 0 {
        return Err(at(e, 0));
    }
    store_request(out, h, lent, header, tags, body)
}

// ---- responses
// Requests and responses have a writer each. One for both would take the walk as a closure, with its law: that is no plainer.

// 13, 11, or 0 for neither, likewise.
fn response_refusal(number: u64, lent: &[u8], header: ResponseHeader, tags: &[u64]) -> u8
    requires { number ≤ 1 }
    ensures { result ≡ refusal_of lent.now 1 (shape (Headers.response).rows 0) (shape (Headers.response).rows number) (of_response header ∷ tags.now ∷ []) }
{
    if !is_good(lent.len(), header.tags, tags) {
        return BAD_TABLES;
    }
    if !fits(header.correlation_id, 2147483648) {
        return TOO_WIDE;
    }
    0
}

fn put_response(
    out: &mut [u8],
    number: u64,
    lent: &[u8],
    header: ResponseHeader,
    tags: &[u64],
    body: &[u8],
) -> usize
    requires { (number ≤ 1) × (count header.tags ≡ length tags.now / 3) }
    ensures { Capped (bytes_at lent.now (shape (Headers.response).rows number) 0 (of_response header ∷ tags.now ∷ []) ++ body.now) out.old result out.new }
{
    let a = primitives_put::lowest(out, header.correlation_id, 4);
    let p = primitives_put::behind(a, out.len());
    let b = put_end(&mut out[p..], 1 <= number, lent, tags, body);
    primitives_put::add(a, b)
}

fn store_response(
    out: &mut [u8],
    number: u64,
    lent: &[u8],
    header: ResponseHeader,
    tags: &[u64],
    body: &[u8],
) -> Written
    requires { (number ≤ 1) × (0 ≡ refusal_of lent.now 1 (shape (Headers.response).rows 0) (shape (Headers.response).rows number) (of_response header ∷ tags.now ∷ [])) }
    ensures { replied result out.new ≡ frame_written Headers.response (pos number) lent.now (of_response header ∷ tags.now ∷ []) body.now out.old }
{
    let size = put_response(&mut out[..0], number, lent, header, tags, body);
    if MOST < size {
        return Err(at(TOO_LONG, 0));
    }
    if out.len() < 4 + size {
        return Err(no_room(4 + size));
    }
    primitives_put::lowest(out, size as u64, 4);
    put_response(&mut out[4..], number, lent, header, tags, body);
    Ok(4 + size)
}

// The same with response header 0 or 1.
pub fn write_response(
    out: &mut [u8],
    number: i64,
    lent: &[u8],
    header: ResponseHeader,
    tags: &[u64],
    body: &[u8],
) -> Written
    ensures { replied result out.new ≡ frame_written Headers.response number lent.now (of_response header ∷ tags.now ∷ []) body.now out.old }
{
    let h = version_of(number);
    if 1 < h {
        return Err(at(NO_VERSION, 0));
    }
    let e = response_refusal(h, lent, header, tags);
    if e != 0 {
        return Err(at(e, 0));
    }
    store_response(out, h, lent, header, tags, body)
}
