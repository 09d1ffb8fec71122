// Numbers at the front of what is left of a message, whose bytes are known to be there.
ghost use Rattle.std.specs.Prelude.{◌≡◌, ◌≤◌, length};
ghost use Rattle.layout.specs.Primitives.{cell, fixed, kept, w16, w32};
ghost use Rattle.layout.specs.Reading.{ok};
ghost use Rattle.primitives.specs.Parts.{counted, of_count};
ghost use Rattle.body_reading.specs.Walk.{on};

use body_reading::tables::less;
use primitives::{BYTES_END, LENGTH_BELOW, MINUS_ONE, Read, Taken, at};

// Cells below it are of numbers that are not negative.
const HALF: u64 = 2147483648;

pub(crate) fn int16_there(rest: &[u8]) -> u64
    requires { 2 ≤ length rest.now }
    ensures { ok result 2 ≡ cell w16 0 rest.now }
{
    let number = i16::from_be_bytes([rest[0], rest[1]]);
    (number as i64).cast_unsigned()
}

pub(crate) fn int32_there(rest: &[u8]) -> u64
    requires { 4 ≤ length rest.now }
    ensures { ok result 4 ≡ cell w32 0 rest.now }
{
    let number = i32::from_be_bytes([rest[0], rest[1], rest[2], rest[3]]);
    (number as i64).cast_unsigned()
}

// The count of an array that may be null, at place p of a message. Whether its bytes are there is asked before the rest is cut out: one comparison is enough.
#[tactic(auto, using(crate::proofs::There::count_missing, crate::proofs::There::count_took, crate::proofs::There::count_null))]
pub(crate) fn count_at(s: &[u8], p: usize) -> Read<Option<u64>>
    ensures { of_count result ≡ on (counted (fixed w32 kept)) s.now p }
{
    if less(s.len(), 3) <= p {
        return Err(at(BYTES_END, p));
    }
    let cell = int32_there(&s[p..]);
    if cell < HALF {
        return Ok(Taken {
            value: Some(cell),
            next: p + 4,
        });
    }
    if cell == MINUS_ONE {
        return Ok(Taken {
            value: None,
            next: p + 4,
        });
    }
    Err(at(LENGTH_BELOW, p))
}
