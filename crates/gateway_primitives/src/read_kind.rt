// A primitive at the front of a message: `kind` says which, in the order of `kinds` (specs/Kinds.antt).
ghost use Rattle.std.specs.Prelude.{◌≡◌, ◌<◌, ◌≤◌};
ghost use Rattle.primitives.specs.Answers.{of_flag, of_integer, of_number};
ghost use Rattle.primitives.specs.Parts.{counted_as, of_count, of_field, of_nullable, of_part, of_span};
ghost use Rattle.gateway_primitives.specs.Kinds.{cells_of, count_cells, field_cells, flag_cells, integer_cells, number_cells, of_reply, part_cells, read_kind, shown};

use crate::kinds::{Reply, Shown};
use primitives::{Field, NO_VERSION, Read, Span, Taken, at};
use primitives_calls::read;
use primitives_put::replies::cell;

// ---- what the readers of the kinds answer

fn number(value: u64) -> Shown
    ensures { cells_of result ≡ number_cells value }
{
    Shown {
        form: 2,
        value,
        length: 0,
    }
}

fn null() -> Shown
    ensures { cells_of result ≡ count_cells 0 }
{
    Shown {
        form: 1,
        value: 0,
        length: 0,
    }
}

fn part(x: Span) -> Shown
    ensures { cells_of result ≡ part_cells (of_span x) }
{
    Shown {
        form: 2,
        value: x.start as u64,
        length: x.len as u64,
    }
}

fn count(n: Option<u64>) -> Shown
    ensures { cells_of result ≡ count_cells (counted_as n) }
{
    match n {
        Some(n) => number(n),
        None => null(),
    }
}

// A field is never absent where there is no version.
fn field(f: Field) -> Shown
    ensures { cells_of result ≡ field_cells (of_field f) }
{
    match f {
        Field::Absent => Shown {
            form: 0,
            value: 0,
            length: 0,
        },
        Field::Null => null(),
        Field::Present(x) => part(x),
    }
}

// One for each type that is read. One function over a trait is no plainer: each promises other cells.
fn of_integer(r: Read<i64>) -> Reply
    ensures { of_reply result ≡ shown integer_cells (of_integer r) }
{
    let Taken { value, next } = r?;
    Ok(Taken {
        value: number(cell(value)),
        next,
    })
}

fn of_flag(r: Read<bool>) -> Reply
    ensures { of_reply result ≡ shown flag_cells (of_flag r) }
{
    let Taken { value, next } = r?;
    Ok(Taken {
        value: number(value as u64),
        next,
    })
}

fn of_number(r: Read<u64>) -> Reply
    ensures { of_reply result ≡ shown number_cells (of_number r) }
{
    let Taken { value, next } = r?;
    Ok(Taken {
        value: number(value),
        next,
    })
}

fn of_count(r: Read<Option<u64>>) -> Reply
    ensures { of_reply result ≡ shown count_cells (of_count r) }
{
    let Taken { value, next } = r?;
    Ok(Taken {
        value: count(value),
        next,
    })
}

fn of_part(r: Read<Span>) -> Reply
    ensures { of_reply result ≡ shown part_cells (of_part r) }
{
    let Taken { value, next } = r?;
    Ok(Taken {
        value: part(value),
        next,
    })
}

fn of_nullable(r: Read<Field>) -> Reply
    ensures { of_reply result ≡ shown field_cells (of_nullable r) }
{
    let Taken { value, next } = r?;
    Ok(Taken {
        value: field(value),
        next,
    })
}

// ---- by kind

fn integers(msg: &[u8], kind: u64) -> Reply
    requires { kind < 4 }
    ensures { of_reply result ≡ read_kind kind msg.now }
{
    match kind {
        0 => of_integer(read::int8(msg)),
        1 => of_integer(read::int16(msg)),
        2 => of_integer(read::int32(msg)),
        _ => of_integer(read::int64(msg)),
    }
}

fn numbers(msg: &[u8], kind: u64) -> Reply
    requires { (4 ≤ kind) × (kind < 8) }
    ensures { of_reply result ≡ read_kind kind msg.now }
{
    match kind {
        4 => of_flag(read::boolean(msg)),
        5 => of_number(read::unsigned_varint(msg)),
        6 => of_integer(read::varint(msg)),
        _ => of_integer(read::varlong(msg)),
    }
}

fn counts(msg: &[u8], kind: u64) -> Reply
    requires { (8 ≤ kind) × (kind < 10) }
    ensures { of_reply result ≡ read_kind kind msg.now }
{
    match kind {
        8 => of_count(read::array_count(msg)),
        _ => of_count(read::compact_array_count(msg)),
    }
}

fn blobs(msg: &[u8], kind: u64) -> Reply
    requires { (10 ≤ kind) × (kind < 14) }
    ensures { of_reply result ≡ read_kind kind msg.now }
{
    match kind {
        10 => of_part(read::bytes(msg)),
        11 => of_nullable(read::nullable_bytes(msg)),
        12 => of_part(read::compact_bytes(msg)),
        _ => of_part(read::records(msg)),
    }
}

fn texts(msg: &[u8], kind: u64) -> Reply
    requires { (14 ≤ kind) × (kind < 18) }
    ensures { of_reply result ≡ read_kind kind msg.now }
{
    match kind {
        14 => of_part(read::string(msg)),
        15 => of_nullable(read::nullable_string(msg)),
        16 => of_part(read::compact_string(msg)),
        _ => of_nullable(read::compact_nullable_string(msg)),
    }
}

// A kind that there is not is refused as a version that there is not.
pub(crate) fn primitive(msg: &[u8], kind: u64) -> Reply
    ensures { of_reply result ≡ read_kind kind msg.now }
{
    if kind < 4 {
        return integers(msg, kind);
    }
    if kind < 8 {
        return numbers(msg, kind);
    }
    if kind < 10 {
        return counts(msg, kind);
    }
    if kind < 14 {
        return blobs(msg, kind);
    }
    if kind < 18 {
        return texts(msg, kind);
    }
    Err(at(NO_VERSION, 0))
}
