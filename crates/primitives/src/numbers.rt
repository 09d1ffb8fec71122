// Numbers at the front of what is left of a message: each reader takes the rest behind the primitive before it, and its promise speaks of that part.
ghost use Rattle.std.specs.Prelude.{cond, ◌≡◌, ◌*◌, ◌+◌, ◌<◌, ◌^◌, ◌≤◌, ltb};
ghost use Rattle.layout.specs.Reading.{bad, because};
ghost use Rattle.layout.specs.Primitives.{cell, flag, int, unsigned, w16, w32, w64, w8};
ghost use Rattle.primitives.specs.Answers.{Below, of_extended, of_flag, of_number, tenth_byte};

use crate::{BYTES_END, Read, Taken, VARINT_CONTINUES, at};

fn wide(x: u8) -> u64
    ensures { (result ≡ x) × (result < 256) }
{
    x as u64
}

// N bytes as a number that is not negative, highest first.
pub(crate) fn uint<const N: usize>(s: &[u8]) -> Read<u64>
    requires { N ≤ 8 }
    ensures { of_number result ≡ int N 0 s.now }
{
    if s.len() < N {
        return Err(at(BYTES_END, 0));
    }
    let mut value: u64 = 0;
    for i in 0..N {
        value = value * 256 + wide(s[i]);
    }
    Ok(Taken { value, next: N })
}

// From half on `fill` is added: a quotient of 0 or 1 costs less than a branch.
fn filled(value: u64, half: u64, fill: u64) -> u64
    requires { (value < 2 * half) × (2 * half + fill ≤ 2 ^ 64) }
    ensures { result ≡ cond (ltb value half) value (value + fill) }
{
    value + value / half * fill
}

// The cell of a number that is not negative: from half on it stands for a negative number, and the bits above its width are filled.
fn extended(n: Read<u64>, half: u64, fill: u64) -> Read<u64>
    requires { Below (2 * half) n × (2 * half + fill ≤ 2 ^ 64) }
    ensures { of_number result ≡ of_extended half fill n }
{
    let Taken { value, next } = n?;
    Ok(Taken {
        value: filled(value, half, fill),
        next,
    })
}

pub fn int8(s: &[u8]) -> Read<u64>
    ensures { of_number result ≡ cell w8 0 s.now }
{
    extended(uint::<1>(s), 128, 18446744073709551360)
}

pub fn int16(s: &[u8]) -> Read<u64>
    ensures { of_number result ≡ cell w16 0 s.now }
{
    extended(uint::<2>(s), 32768, 18446744073709486080)
}

pub fn int32(s: &[u8]) -> Read<u64>
    ensures { of_number result ≡ cell w32 0 s.now }
{
    extended(uint::<4>(s), 2147483648, 18446744069414584320)
}

pub fn int64(s: &[u8]) -> Read<u64>
    ensures { of_number result ≡ cell w64 0 s.now }
{
    uint::<8>(s)
}

// Any byte but 0 is true.
pub fn boolean(s: &[u8]) -> Read<bool>
    ensures { of_flag result ≡ flag 0 s.now }
{
    match s {
        [b, ..] => Ok(Taken {
            value: 0 < *b,
            next: 1,
        }),
        [] => Err(at(BYTES_END, 0)),
    }
}

// The bytes end inside a varint.
fn bytes_end() -> Read<u64>
    ensures { of_number result ≡ bad (because 3 0) }
{
    Err(at(BYTES_END, 0))
}

// The tenth byte gives its lowest bit alone, and must not continue.
fn tenth(value: u64, b: u64) -> Read<u64>
    requires { value < 2 ^ 63 }
    ensures { of_number result ≡ tenth_byte value b }
{
    if b < 128 {
        return Ok(Taken {
            value: value + b % 2 * 9223372036854775808,
            next: 10,
        });
    }
    Err(at(VARINT_CONTINUES, 0))
}

// Seven bits a byte, lowest first.
pub fn unsigned_varint(s: &[u8]) -> Read<u64>
    ensures { of_number result ≡ unsigned 0 s.now }
{
    let mut weight: u64 = 1;
    let mut value: u64 = 0;
    for p in 0..9 {
        if s.len() <= p {
            return bytes_end();
        }
        let b = wide(s[p]);
        if b < 128 {
            return Ok(Taken {
                value: value + b * weight,
                next: p + 1,
            });
        }
        value += b % 128 * weight;
        weight *= 128;
    }
    if s.len() <= 9 {
        return bytes_end();
    }
    tenth(value, wide(s[9]))
}
