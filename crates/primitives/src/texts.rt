// Texts: data that must be well-formed UTF-8.
ghost use Rattle.std.specs.Prelude.{◌≡◌, false};
ghost use Rattle.layout.specs.Primitives.{compact, fixed, kept, never, w16};
ghost use Rattle.layout.specs.Rows.{text};
ghost use Rattle.layout.specs.Read.{by_place, read_basic};
ghost use Rattle.primitives.specs.Parts.{kept_behind, of_nullable, of_part, shown_behind, text_behind, there};

use crate::{
    BYTES_END, Field, LENGTH_BELOW, LENGTH_ZERO, NOT_TEXT, Read, Span, Taken, at, lengths, parts,
};

fn characters(s: &[u8], used: usize, count: u64) -> Read<Span>
    ensures { of_part result ≡ text_behind used count s.now }
{
    let left = parts::rest(s, used);
    if (left.len() as u64) < count {
        return Err(at(BYTES_END, 0));
    }
    let len = count as usize;
    let good = utf8::well_formed(&left[..len]);
    if good == len {
        return Ok(Taken {
            value: Span { start: used, len },
            next: used + len,
        });
    }
    Err(at(NOT_TEXT, used + good))
}

// A text behind the length that was read, where null is refused with a number.
fn text_of(s: &[u8], c: Read<Option<u64>>, null: u8) -> Read<Span>
    ensures { of_part result ≡ shown_behind text_behind false null s.now c }
{
    let Taken { value, next } = c?;
    match value {
        Some(count) => characters(s, next, count),
        None => Err(at(null, 0)),
    }
}

pub fn string(s: &[u8]) -> Read<Span>
    ensures { of_part result ≡ read_basic (by_place false) (text (fixed w16 never)) 0 s.now }
{
    text_of(s, lengths::length16(s), LENGTH_BELOW)
}

pub fn compact_string(s: &[u8]) -> Read<Span>
    ensures { of_part result ≡ read_basic (by_place false) (text (compact never)) 0 s.now }
{
    text_of(s, lengths::compact_length(s), LENGTH_ZERO)
}

// Null is a value of its own.
fn nullable_text(s: &[u8], c: Read<Option<u64>>) -> Read<Field>
    ensures { of_nullable result ≡ there (kept_behind text_behind s.now c) }
{
    let Taken { value, next } = c?;
    match value {
        Some(count) => parts::present(characters(s, next, count)),
        None => Ok(Taken {
            value: Field::Null,
            next,
        }),
    }
}

pub fn nullable_string(s: &[u8]) -> Read<Field>
    ensures { of_nullable result ≡ there (read_basic (by_place false) (text (fixed w16 kept)) 0 s.now) }
{
    nullable_text(s, lengths::length16(s))
}

pub fn compact_nullable_string(s: &[u8]) -> Read<Field>
    ensures { of_nullable result ≡ there (read_basic (by_place false) (text (compact kept)) 0 s.now) }
{
    nullable_text(s, lengths::compact_length(s))
}
