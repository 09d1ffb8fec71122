// Data behind its length, at the front of what is left of a message: shown as a part of it.
ghost use Rattle.std.specs.Prelude.{◌≡◌, false, drop};
ghost use Rattle.layout.specs.Primitives.{compact, empty, fixed, kept, never, w32};
ghost use Rattle.layout.specs.Rows.{blob};
ghost use Rattle.layout.specs.Read.{by_place, read_basic};
ghost use Rattle.primitives.specs.Parts.{data_behind, of_nullable, of_part, shown_behind, some_part, there};

use crate::{BYTES_END, Field, LENGTH_BELOW, LENGTH_ZERO, Read, Span, Taken, at, lengths};

// What is left behind `used` bytes, and nothing behind the end.
pub fn rest(s: &[u8], used: usize) -> &[u8]
    ensures { result.now ≡ drop used s.now }
{
    if used < s.len() {
        &s[used..]
    } else {
        &s[s.len()..]
    }
}

// `count` bytes behind `used`. Where they end before, the refusal is at the place of their length.
pub fn contents(s: &[u8], place: usize, used: usize, count: u64) -> Read<Span>
    ensures { of_part result ≡ data_behind place used count s.now }
{
    let left = rest(s, used);
    if (left.len() as u64) < count {
        return Err(at(BYTES_END, place));
    }
    let len = count as usize;
    Ok(Taken {
        value: Span { start: used, len },
        next: used + len,
    })
}

// Data behind the length that was read, where null is refused with a number.
fn data_of(s: &[u8], c: Read<Option<u64>>, null: u8) -> Read<Span>
    ensures { of_part result ≡ shown_behind (data_behind 0) false null s.now c }
{
    let Taken { value, next } = c?;
    match value {
        Some(count) => contents(s, 0, next, count),
        None => Err(at(null, 0)),
    }
}

pub fn bytes(s: &[u8]) -> Read<Span>
    ensures { of_part result ≡ read_basic (by_place false) (blob (fixed w32 never)) 0 s.now }
{
    data_of(s, lengths::length32(s), LENGTH_BELOW)
}

pub fn compact_bytes(s: &[u8]) -> Read<Span>
    ensures { of_part result ≡ read_basic (by_place false) (blob (compact never)) 0 s.now }
{
    data_of(s, lengths::compact_length(s), LENGTH_ZERO)
}

pub fn nullable_bytes(s: &[u8]) -> Read<Field>
    ensures { of_nullable result ≡ there (read_basic (by_place false) (blob (fixed w32 kept)) 0 s.now) }
{
    let Taken { value, next } = lengths::length32(s)?;
    match value {
        Some(count) => present(contents(s, 0, next, count)),
        None => Ok(Taken {
            value: Field::Null,
            next,
        }),
    }
}

pub(crate) fn present(p: Read<Span>) -> Read<Field>
    ensures { of_nullable result ≡ there (some_part (of_part p)) }
{
    let Taken { value, next } = p?;
    Ok(Taken {
        value: Field::Present(value),
        next,
    })
}

// NULLABLE_BYTES, null shown as empty; the batches inside are not looked at.
pub fn records(s: &[u8]) -> Read<Span>
    ensures { of_part result ≡ read_basic (by_place false) (blob (fixed w32 empty)) 0 s.now }
{
    let Taken { value, next } = lengths::length32(s)?;
    contents(s, 0, next, value.unwrap_or(0))
}
