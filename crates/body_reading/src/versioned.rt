// Fields that a version may lack, at a place of a message: read where the version has them, and absent where it does not.
ghost use Rattle.std.specs.Prelude.{◌≡◌, [], ◌∷◌};
ghost use Rattle.layout.specs.Primitives.{fixed, kept, w16, w32, w64};
ghost use Rattle.layout.specs.Rows.{boolean, end, number, optional, stands, text};
ghost use Rattle.body_reading.specs.Walk.{on, row_from};
ghost use Rattle.body_reading.specs.Cells.{of_cell, of_text, of_versioned_at};
ghost use Rattle.body_reading.specs.Fronts.{front_of, of_front};

use crate::places::{boolean_at, int32_at, int64_at, items_at, nullable_string_at};
use primitives::{Field, MINUS_ONE, Read, Refusal, Taken};

// The cell of a Boolean or a number that the version lacks.
const ABSENT: u64 = MINUS_ONE;

// The front of a body: its throttle time, which a version may lack, the number of items of the array after it, and the place where they start.
#[derive(Clone, Copy)]
pub struct Front {
    pub throttle: Option<u64>,
    pub count: u64,
    pub next: usize,
}

// `None` where the version lacks it.
pub fn int32_if(s: &[u8], p: usize, there: bool) -> Read<Option<u64>>
    ensures { of_versioned_at result ≡ on (row_from [] (stands there (optional (0 ∷ []) (number w32)) end)) s.now p }
{
    if !there {
        return Ok(Taken {
            value: None,
            next: p,
        });
    }
    let number = int32_at(s, p)?;
    Ok(Taken {
        value: Some(number.value),
        next: number.next,
    })
}

// As a cell: -1 where the version lacks it.
pub fn int64_if(s: &[u8], p: usize, there: bool) -> Read<u64>
    ensures { of_cell result ≡ on (row_from [] (stands there (number w64) end)) s.now p }
{
    if !there {
        return Ok(Taken {
            value: ABSENT,
            next: p,
        });
    }
    int64_at(s, p)
}

// As a cell: 0 or 1, and -1 where the version lacks it.
pub fn boolean_if(s: &[u8], p: usize, there: bool) -> Read<u64>
    ensures { of_cell result ≡ on (row_from [] (stands there boolean end)) s.now p }
{
    if !there {
        return Ok(Taken {
            value: ABSENT,
            next: p,
        });
    }
    let flag = boolean_at(s, p)?;
    Ok(Taken {
        value: flag.value as u64,
        next: flag.next,
    })
}

pub fn nullable_string_if(s: &[u8], p: usize, there: bool) -> Read<Field>
    ensures { of_text result ≡ on (row_from [] (stands there (text (fixed w16 kept)) end)) s.now p }
{
    if !there {
        return Ok(Taken {
            value: Field::Absent,
            next: p,
        });
    }
    nullable_string_at(s, p)
}

// Where a body starts: perhaps a throttle time, and the number of items of an array.
pub fn front_of(s: &[u8], there: bool) -> Result<Front, Refusal>
    ensures { of_front result ≡ on (front_of there) s.now 0 }
{
    let throttle = int32_if(s, 0, there)?;
    let count = items_at(s, throttle.next, false, false)?;
    Ok(Front {
        throttle: throttle.value,
        count: count.value,
        next: count.next,
    })
}
