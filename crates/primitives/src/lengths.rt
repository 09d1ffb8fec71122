// Lengths and counts at the front of what is left of a message: `None` is null.
ghost use Rattle.std.specs.Prelude.{◌≡◌};
ghost use Rattle.layout.specs.Primitives.{compact, fixed, kept, w16, w32};
ghost use Rattle.primitives.specs.Parts.{counted, of_count, of_length};

use crate::{LENGTH_BELOW, Read, Taken, at, numbers};

// A number that is not negative, looked at as a length: from half on it stands for a negative number, and null is -1.
fn length(n: Read<u64>, half: u64, null: u64) -> Read<Option<u64>>
    ensures { of_count result ≡ of_length half null n }
{
    let Taken { value, next } = n?;
    if value < half {
        return Ok(Taken {
            value: Some(value),
            next,
        });
    }
    if value == null {
        return Ok(Taken { value: None, next });
    }
    Err(at(LENGTH_BELOW, 0))
}

pub(crate) fn length16(s: &[u8]) -> Read<Option<u64>>
    ensures { of_count result ≡ counted (fixed w16 kept) 0 s.now }
{
    length(numbers::uint::<2>(s), 32768, 65535)
}

pub fn length32(s: &[u8]) -> Read<Option<u64>>
    ensures { of_count result ≡ counted (fixed w32 kept) 0 s.now }
{
    length(numbers::uint::<4>(s), 2147483648, 4294967295)
}

// One more than the length, 0 for null.
pub fn compact_length(s: &[u8]) -> Read<Option<u64>>
    ensures { of_count result ≡ counted (compact kept) 0 s.now }
{
    let Taken { value, next } = numbers::unsigned_varint(s)?;
    let count = if value == 0 { None } else { Some(value - 1) };
    Ok(Taken { value: count, next })
}
