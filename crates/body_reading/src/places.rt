// Primitives at a place of a message, as walks over a body read them: each is read on the rest from the place on, and its answer counts from the message's start.
ghost use Rattle.std.specs.Prelude.{false, ◌≡◌, ◌+◌, ◌<◌, ◌^◌};
ghost use Rattle.layout.specs.Primitives.{cell, compact, empty, fixed, flag, kept, never, plain, unsigned, w16, w32, w64};
ghost use Rattle.layout.specs.Reading.{because};
ghost use Rattle.layout.specs.Read.{by_place, read_basic};
ghost use Rattle.layout.specs.Rows.{blob, text};
ghost use Rattle.primitives.specs.Answers.{of_flag, of_number, of_read, of_refusal};
ghost use Rattle.primitives.specs.Parts.{of_count, of_field, of_nullable, of_part, of_span, there};
ghost use Rattle.body_reading.specs.Walk.{on};
ghost use Rattle.body_reading.specs.Moved.{FieldFits, Fits, PartFits, StartFits, array_count, array_items, from_part, from_place, front_at, further, further_field, items_of};

use crate::tables::less;
use primitives::{
    Field, NULL_ITEMS, Read, Refusal, Span, Taken, at, lengths, numbers, parts, texts,
};

// What was read on the rest from place p on, as read at that place of the message.
fn moved<T>(n: Read<T>, p: usize) -> Read<T>
    requires { Fits p (of_read (λ v. v) n) }
    ensures { of_read (λ v. v) result ≡ from_place (λ d x. x) p (of_read (λ v. v) n) }
{
    match n {
        Ok(n) => Ok(Taken {
            value: n.value,
            next: p + n.next,
        }),
        Err(e) => Err(at(e.number, p)),
    }
}

// The byte at p and `more` behind it, or none where they are not all there. The commonest primitives are read on just their bytes, so that one comparison is enough.
fn front(s: &[u8], p: usize, more: usize) -> &[u8]
    ensures { result.now ≡ front_at p more s.now }
{
    if p < less(s.len(), more) {
        return &s[p..p + more + 1];
    }
    &s[..0]
}

pub fn int16_at(s: &[u8], p: usize) -> Read<u64>
    ensures { of_number result ≡ on (cell w16) s.now p }
{
    moved(numbers::int16(front(s, p, 1)), p)
}

pub fn int32_at(s: &[u8], p: usize) -> Read<u64>
    ensures { of_number result ≡ on (cell w32) s.now p }
{
    moved(numbers::int32(front(s, p, 3)), p)
}

pub fn int64_at(s: &[u8], p: usize) -> Read<u64>
    ensures { of_number result ≡ on (cell w64) s.now p }
{
    moved(numbers::int64(front(s, p, 7)), p)
}

// Most varints have one byte.
pub fn varint_at(s: &[u8], p: usize) -> Read<u64>
    ensures { of_number result ≡ on unsigned s.now p }
{
    if p < s.len() {
        let left = &s[p..];
        let b = left[0];
        if b < 128 {
            return Ok(Taken {
                value: b as u64,
                next: p + 1,
            });
        }
    }
    moved(numbers::unsigned_varint(parts::rest(s, p)), p)
}

// The count of an array, compact or not.
fn count(s: &[u8], flexible: bool) -> Read<Option<u64>>
    ensures { of_count result ≡ array_count flexible 0 s.now }
{
    if flexible {
        return lengths::compact_length(s);
    }
    lengths::length32(s)
}

fn items(c: Read<Option<u64>>, whole: bool) -> Read<u64>
    ensures { of_number result ≡ items_of whole (of_count c) }
{
    let Taken { value, next } = c?;
    match value {
        Some(count) => Ok(Taken { value: count, next }),
        None => {
            if whole {
                return Err(at(NULL_ITEMS, 0));
            }
            Ok(Taken { value: 0, next })
        }
    }
}

// How many items an array has. Null is none, and refused in a whole read.
pub fn items_at(s: &[u8], p: usize, flexible: bool, whole: bool) -> Read<u64>
    ensures { of_number result ≡ on (array_items flexible whole) s.now p }
{
    moved(items(count(parts::rest(s, p), flexible), whole), p)
}

// A refusal inside the rest, as one of the message.
fn refusal_moved(e: Refusal, p: usize) -> Refusal
    requires { p + e.place < 2 ^ 64 }
    ensures { of_refusal result ≡ because e.number (p + e.place) }
{
    at(e.number, p + e.place)
}

fn span_moved(part: Span, p: usize) -> Span
    requires { p + part.start < 2 ^ 64 }
    ensures { of_span result ≡ further p (of_span part) }
{
    Span {
        start: p + part.start,
        len: part.len,
    }
}

// A part of the rest, as a part of the message.
fn part_moved(part: Read<Span>, p: usize) -> Read<Span>
    requires { PartFits p (of_part part) }
    ensures { of_part result ≡ from_part further p (of_part part) }
{
    match part {
        Ok(part) => Ok(Taken {
            value: span_moved(part.value, p),
            next: p + part.next,
        }),
        Err(e) => Err(refusal_moved(e, p)),
    }
}

pub fn compact_string_at(s: &[u8], p: usize) -> Read<Span>
    ensures { of_part result ≡ on (read_basic (by_place false) (text (compact never))) s.now p }
{
    part_moved(texts::compact_string(parts::rest(s, p)), p)
}

pub fn string_at(s: &[u8], p: usize) -> Read<Span>
    ensures { of_part result ≡ on (read_basic (by_place false) (text (fixed w16 never))) s.now p }
{
    part_moved(texts::string(parts::rest(s, p)), p)
}

// Data that may be null: null is shown as empty.
pub fn records_at(s: &[u8], p: usize) -> Read<Span>
    ensures { of_part result ≡ on (read_basic (by_place false) (blob (fixed w32 empty))) s.now p }
{
    part_moved(parts::records(parts::rest(s, p)), p)
}

// Data behind their length as an unsigned varint, which is read as `varint_at` reads it: most have one byte.
pub fn data_at(s: &[u8], p: usize) -> Read<Span>
    ensures { of_part result ≡ on (read_basic (by_place false) (blob plain)) s.now p }
{
    let length = varint_at(s, p)?;
    parts::contents(s, p, length.next, length.value)
}

fn start_moved(field: Field, p: usize) -> Field
    requires { StartFits p (of_field field) }
    ensures { of_field result ≡ further_field p (of_field field) }
{
    match field {
        Field::Absent => Field::Absent,
        Field::Null => Field::Null,
        Field::Present(part) => Field::Present(span_moved(part, p)),
    }
}

// A field of the rest, as one of the message.
fn field_moved(n: Read<Field>, p: usize) -> Read<Field>
    requires { FieldFits p (of_nullable n) }
    ensures { of_nullable result ≡ from_part further_field p (of_nullable n) }
{
    match n {
        Ok(n) => Ok(Taken {
            value: start_moved(n.value, p),
            next: p + n.next,
        }),
        Err(e) => Err(refusal_moved(e, p)),
    }
}

pub fn nullable_string_at(s: &[u8], p: usize) -> Read<Field>
    ensures { of_nullable result ≡ there (on (read_basic (by_place false) (text (fixed w16 kept))) s.now p) }
{
    field_moved(texts::nullable_string(parts::rest(s, p)), p)
}

pub fn boolean_at(s: &[u8], p: usize) -> Read<bool>
    ensures { of_flag result ≡ on flag s.now p }
{
    moved(numbers::boolean(parts::rest(s, p)), p)
}
