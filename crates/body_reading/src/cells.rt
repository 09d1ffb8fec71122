// The cells of a number that a version may lack, and of a text that may be null: as a caller over the C interface is shown them, and the number as one lends it.
ghost use Rattle.std.specs.Prelude.{◌≡◌, get_or};
ghost use Rattle.body_reading.specs.Cells.{field_cells, given, versioned_cells, versioned_row};

use primitives::{Field, Span};

// 0 where it is absent or unset, 2 where it is there.
pub fn kind(x: Option<u64>) -> u64
    ensures { result ≡ get_or (versioned_cells x) 0 0 }
{
    match x {
        None => 0,
        Some(_) => 2,
    }
}

// The number, or d where there is none.
pub fn given(x: Option<u64>, d: u64) -> u64
    ensures { result ≡ given d x }
{
    x.unwrap_or(d)
}

// Kind 0 is unset, any other present.
pub fn of_row(kind: u64, n: u64) -> Option<u64>
    ensures { versioned_cells result ≡ versioned_row kind n }
{
    if kind == 0 {
        return None;
    }
    Some(n)
}

// Of a text that may be null: 0 where it is absent, 1 where it is null, 2 where it is there.
pub fn field_kind(f: Field) -> u64
    ensures { result ≡ get_or (field_cells f) 0 0 }
{
    match f {
        Field::Absent => 0,
        Field::Null => 1,
        Field::Present(_) => 2,
    }
}

pub fn field_start(f: Field) -> u64
    ensures { result ≡ get_or (field_cells f) 1 0 }
{
    match f {
        Field::Absent | Field::Null => 0,
        Field::Present(Span { start, .. }) => start as u64,
    }
}

pub fn field_length(f: Field) -> u64
    ensures { result ≡ get_or (field_cells f) 2 0 }
{
    match f {
        Field::Absent | Field::Null => 0,
        Field::Present(Span { len, .. }) => len as u64,
    }
}
