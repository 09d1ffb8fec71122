// What the calls that write share: the cell of a number, the width that holds it, and the answer where bytes were put.
ghost use Rattle.std.specs.Prelude.{◌≡◌};
ghost use Rattle.layout.specs.Primitives.{cell_of};
ghost use Rattle.primitives_put.specs.Answers.{of_written, told, within};

use crate::Written;
use primitives::no_room;

// The cell of a signed number: its 64 bits.
pub fn cell(value: i64) -> u64
    ensures { result ≡ cell_of value }
{
    value.cast_unsigned()
}

// What is answered where n bytes were put into an output of so much room.
pub fn answer(room: usize, n: usize) -> Written
    ensures { of_written result ≡ told room n }
{
    if n <= room {
        return Ok(n);
    }
    Err(no_room(n))
}

// Does the cell hold a number from -half to half - 1?
pub fn fits(c: u64, half: u64) -> bool
    ensures { result ≡ within half c }
{
    if c < half {
        return true;
    }
    18446744073709551615 - c < half
}
