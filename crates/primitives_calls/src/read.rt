// Every primitive of primitives.rs read by itself: numbers, counts, data and texts, in one module, since a caller asks for them by name and all are checked alike.
// Each call checks the size of the message that it is lent, and reads the primitive at its front.
ghost use Rattle.std.specs.Prelude.{◌≡◌, ◌<◌, ◌≤◌, IfErr, OnErr, OnOk, false, length};
ghost use Rattle.layout.specs.Primitives.{cell_of, compact, empty, fixed, flag, integer, kept, never, unsigned, varint, varlong, w16, w32, w64, w8};
ghost use Rattle.layout.specs.Answers.{alone};
ghost use Rattle.layout.specs.Reading.{because};
ghost use Rattle.primitives.specs.Answers.{of_carried, of_flag, of_integer, of_narrow, of_number, of_refusal, of_shown, zigzagged};
ghost use Rattle.layout.specs.Rows.{blob, text};
ghost use Rattle.layout.specs.Read.{by_place, read_basic};
ghost use Rattle.primitives.specs.Parts.{counted, of_count, of_nullable, of_part, there};

use primitives::signs::signed;
use primitives::{
    Field, MOST, Read, Refusal, Span, TOO_LONG, TOO_WIDE, Taken, at, lengths, numbers, parts, texts,
};

// Refuses a message that is over the size.
fn sized(msg: &[u8]) -> Result<(), Refusal>
    ensures ok { OnOk result (length msg.now ≤ 1048576) }
    ensures err { OnErr result (1048576 < length msg.now) }
    ensures refusal { IfErr result (λ e. of_refusal e ≡ because 2 0) }
{
    if MOST < msg.len() {
        return Err(at(TOO_LONG, 0));
    }
    Ok(())
}

// A cell's number in place of the cell.
fn integer(n: Read<u64>) -> Read<i64>
    ensures { of_integer result ≡ of_shown n }
{
    let Taken { value, next } = n?;
    Ok(Taken {
        value: signed(value),
        next,
    })
}

// A function for each width, as the kinds of the C interface name them; `integer` is what they share.
pub fn int8(msg: &[u8]) -> Read<i64>
    ensures { of_integer result ≡ alone (integer w8) msg.now }
{
    sized(msg)?;
    integer(numbers::int8(msg))
}

pub fn int16(msg: &[u8]) -> Read<i64>
    ensures { of_integer result ≡ alone (integer w16) msg.now }
{
    sized(msg)?;
    integer(numbers::int16(msg))
}

pub fn int32(msg: &[u8]) -> Read<i64>
    ensures { of_integer result ≡ alone (integer w32) msg.now }
{
    sized(msg)?;
    integer(numbers::int32(msg))
}

pub fn boolean(msg: &[u8]) -> Read<bool>
    ensures { of_flag result ≡ alone flag msg.now }
{
    sized(msg)?;
    numbers::boolean(msg)
}

pub fn unsigned_varint(msg: &[u8]) -> Read<u64>
    ensures { of_number result ≡ alone unsigned msg.now }
{
    sized(msg)?;
    numbers::unsigned_varint(msg)
}

// The cell of the number that n carries by zigzag.
fn unzigzag(n: u64) -> u64
    ensures { result ≡ cell_of (zigzagged n) }
{
    if n % 2 == 0 {
        return n / 2;
    }
    18446744073709551615 - n / 2
}

// The same of a number that was read.
fn carried(n: Read<u64>) -> Read<u64>
    ensures { of_shown result ≡ of_carried n }
{
    let Taken { value, next } = n?;
    Ok(Taken {
        value: unzigzag(value),
        next,
    })
}

// 32 bits: what is outside is refused once the whole varint is read.
fn narrow(n: Read<u64>) -> Read<u64>
    ensures { of_number result ≡ of_narrow n }
{
    let Taken { value, next } = n?;
    if 4294967295 < value {
        return Err(at(TOO_WIDE, 0));
    }
    Ok(Taken { value, next })
}

pub fn varint(msg: &[u8]) -> Read<i64>
    ensures { of_integer result ≡ alone varint msg.now }
{
    sized(msg)?;
    integer(carried(narrow(numbers::unsigned_varint(msg))))
}

// ---- all 64 bits

pub fn int64(msg: &[u8]) -> Read<i64>
    ensures { of_integer result ≡ alone (integer w64) msg.now }
{
    sized(msg)?;
    integer(numbers::int64(msg))
}

pub fn varlong(msg: &[u8]) -> Read<i64>
    ensures { of_integer result ≡ alone varlong msg.now }
{
    sized(msg)?;
    integer(carried(numbers::unsigned_varint(msg)))
}

// ---- counts and bytes

pub fn array_count(msg: &[u8]) -> Read<Option<u64>>
    ensures { of_count result ≡ alone (counted (fixed w32 kept)) msg.now }
{
    sized(msg)?;
    lengths::length32(msg)
}

pub fn compact_array_count(msg: &[u8]) -> Read<Option<u64>>
    ensures { of_count result ≡ alone (counted (compact kept)) msg.now }
{
    sized(msg)?;
    lengths::compact_length(msg)
}

pub fn bytes(msg: &[u8]) -> Read<Span>
    ensures { of_part result ≡ alone (read_basic (by_place false) (blob (fixed w32 never))) msg.now }
{
    sized(msg)?;
    parts::bytes(msg)
}

pub fn nullable_bytes(msg: &[u8]) -> Read<Field>
    ensures { of_nullable result ≡ there (alone (read_basic (by_place false) (blob (fixed w32 kept))) msg.now) }
{
    sized(msg)?;
    parts::nullable_bytes(msg)
}

pub fn compact_bytes(msg: &[u8]) -> Read<Span>
    ensures { of_part result ≡ alone (read_basic (by_place false) (blob (compact never))) msg.now }
{
    sized(msg)?;
    parts::compact_bytes(msg)
}

pub fn records(msg: &[u8]) -> Read<Span>
    ensures { of_part result ≡ alone (read_basic (by_place false) (blob (fixed w32 empty))) msg.now }
{
    sized(msg)?;
    parts::records(msg)
}

// ---- texts

pub fn string(msg: &[u8]) -> Read<Span>
    ensures { of_part result ≡ alone (read_basic (by_place false) (text (fixed w16 never))) msg.now }
{
    sized(msg)?;
    texts::string(msg)
}

pub fn nullable_string(msg: &[u8]) -> Read<Field>
    ensures { of_nullable result ≡ there (alone (read_basic (by_place false) (text (fixed w16 kept))) msg.now) }
{
    sized(msg)?;
    texts::nullable_string(msg)
}

pub fn compact_string(msg: &[u8]) -> Read<Span>
    ensures { of_part result ≡ alone (read_basic (by_place false) (text (compact never))) msg.now }
{
    sized(msg)?;
    texts::compact_string(msg)
}

pub fn compact_nullable_string(msg: &[u8]) -> Read<Field>
    ensures { of_nullable result ≡ there (alone (read_basic (by_place false) (text (compact kept))) msg.now) }
{
    sized(msg)?;
    texts::compact_nullable_string(msg)
}
