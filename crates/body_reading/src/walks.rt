// What walks over the rows of a table answer, for any table of any body; and what is checked before a walk.
ghost use Rattle.body_reading.specs.Admission.{Judged};

use primitives::{MOST, NO_VERSION, Refusal, TOO_LONG, at, version_of};

// The place behind some rows, and the mark of their table.
#[derive(Clone, Copy)]
pub struct Filled {
    pub next: usize,
    pub mark: usize,
}

// The cell of an array's count, the place behind the array, and the mark of its table.
#[derive(Clone, Copy)]
pub struct Counted {
    pub count: u64,
    pub next: usize,
    pub mark: usize,
}

// The version as a number, or why no byte of the message is looked at: the version first, up to the last one that there is, and then the size.
pub fn admit(version: i64, last: u64, size: usize) -> Result<u64, Refusal>
    ensures { Judged version last size result }
{
    let v = version_of(version);
    if last < v {
        return Err(at(NO_VERSION, 0));
    }
    if MOST < size {
        return Err(at(TOO_LONG, 0));
    }
    Ok(v)
}
