// The C interface, what all of its answers begin with: number, place and need. The entry points have crates of their own: `gateway_primitives`, and one for each message. `gateway_c` exports them to C.
// Each call of the library is there with numbers and slices alone, and each answer is a struct of numbers. A cell is 64 bits, two's complement.
// Where a struct has `number` 0 the call accepted, and `place` and `need` are 0;
// else it refused with that number of docs/RULES.md, section 10, at that place, and every other field is 0.
#![tactic(auto)]

ghost use Rattle.std.specs.Prelude.{◌≡◌, []};
ghost use Rattle.layout.specs.Answers.{accepted, refused};
ghost use Rattle.primitives.specs.Answers.{of_refusal};
ghost use Rattle.primitives_put.specs.Answers.{of_written};
ghost use Rattle.gateway.specs.Replies.{numbers};

use primitives::Refusal;
use primitives_put::Written;

// What every answer begins with, and that of a writer is: `used` bytes were read or written.
#[repr(C)]
#[derive(Clone, Copy)]
pub struct Numbers {
    pub number: u64,
    pub place: u64,
    pub need: u64,
    pub used: u64,
}

// So many bytes were read or written.
pub fn accepted(used: usize) -> Numbers
    ensures { result ≡ numbers (accepted [] used) }
{
    Numbers {
        number: 0,
        place: 0,
        need: 0,
        used: used as u64,
    }
}

pub fn refused(e: Refusal) -> Numbers
    ensures { result ≡ numbers (refused (of_refusal e)) }
{
    Numbers {
        number: e.number as u64,
        place: e.place as u64,
        need: e.need as u64,
        used: 0,
    }
}

// What a writer answers, as numbers.
pub fn written(w: Written) -> Numbers
    ensures { result ≡ numbers (of_written w) }
{
    match w {
        Ok(n) => accepted(n),
        Err(e) => refused(e),
    }
}
