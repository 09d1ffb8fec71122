// The name of a refusal: the message, and the row and the field in which its place lies. What every walk to that field shares; it is asked for only where a call refuses.
#![tactic(auto)]

ghost use Rattle.std.specs.Prelude.{◌≡◌, ℕ, List, []};
ghost use Rattle.layout.specs.Names.{fieldless};
ghost use Rattle.layout.specs.Reading.{loop, naming, nowhere};
ghost use Rattle.layout.specs.Rows.{Shape};
ghost use Rattle.primitives.specs.Answers.{of_refusal};
ghost use Rattle.body_reading.specs.Walk.{on};
ghost use Rattle.names.specs.Walks.{Begins, Each, element, lies, named_by, of_named, of_sought};

use primitives::{
    BAD_SIZE, BAD_TABLES, BYTES_LEFT, MINUS_ONE, NO_ROOM, NO_VERSION, Refusal, TOO_LONG,
};

pub mod fields;
pub mod runs;
pub mod tags;

// The numbers by which refusals name the messages, as the C interface shows them; 0 is a primitive, or tagged fields, by themselves.
pub const API_VERSIONS_REQUEST: u8 = 1;

pub const API_VERSIONS_RESPONSE: u8 = 2;

pub const METADATA_REQUEST: u8 = 3;

pub const METADATA_RESPONSE: u8 = 4;

pub const FETCH_REQUEST: u8 = 5;

pub const FETCH_RESPONSE: u8 = 6;

// With the size before it.
pub const REQUEST_HEADER: u8 = 7;

pub const RESPONSE_HEADER: u8 = 8;

// A refusal with its name. `row` and `field` are cells, as the C interface shows them: -1 where there is none.
#[derive(Drop)]
pub struct Named {
    pub number: u8,
    pub place: usize,
    pub need: usize,
    pub message: u8,
    pub row: u64,
    pub field: u64,
}

fn name(e: Refusal, message: u8, row: u64, field: u64) -> Named
    ensures { of_named result ≡ naming message row field (of_refusal e) }
{
    Named {
        number: e.number,
        place: e.place,
        need: e.need,
        message,
        row,
        field,
    }
}

// A refusal that is of no field.
pub fn without_field(e: Refusal, message: u8) -> Named
    ensures { of_named result ≡ naming message nowhere nowhere (of_refusal e) }
{
    name(e, message, MINUS_ONE, MINUS_ONE)
}

// What a call that writes a body or a frame can answer, with the name of a refusal: so many bytes were written, or the refusal.
pub type BodyWritten = Result<usize, Named>;

// The field in which a place lies: its row and its position there.
#[derive(Clone, Copy)]
pub struct Found {
    pub row: u64,
    pub field: u64,
}

// What a walk to the field in which a place lies comes to: the place after all that was walked over, or the field, which ends the walk.
pub type Sought = Result<usize, Found>;

// How many rows of each table a walk has begun is counted in a lent array. The next row of table t.
#[tactic(auto, using(crate::proofs::Ways::no_table, crate::proofs::Ways::none_begun))]
pub fn begin(begun: &mut [u64], t: usize) -> u64
    ensures { Begins t begun.old begun.new result }
{
    if t < begun.len() {
        let row = begun[t];
        begun[t] = row.wrapping_add(1);
        return row;
    }
    0
}

// `count` elements from place p on, each a row of table t. `walk` takes the place of an element and its row.
pub fn rows<F: Fn(usize, u64, &mut [u64]) -> Sought>(
    p: usize,
    t: usize,
    count: u64,
    begun: &mut [u64],
    walk: F,
) -> Sought
    requires { F.IsAlwaysCallable walk }
    ensures { (q : ℕ) (l : Shape) (s : List ℕ) → Each q l s (F.post walk) → of_sought begun.new result ≡ on (loop count (element q l t) begun.old) s p }
{
    let mut next = p;
    for _ in 0..count {
        let row = begin(begun, t);
        next = walk(next, row, begun)?;
    }
    Ok(next)
}

// A refusal with what its walk came to.
#[tactic(auto, using(crate::proofs::Given::by_found, crate::proofs::Given::by_past))]
pub fn named_by(e: Refusal, message: u8, sought: Sought) -> Named
    ensures { of_named result ≡ named_by message (of_refusal e) (lies (of_sought [] sought)) }
{
    match sought {
        Err(Found { row, field }) => name(e, message, row, field),
        Ok(_) => without_field(e, message),
    }
}

// Is it a number that is of no field?
#[tactic(auto, unfolding(layout::specs::Names::fieldless))]
pub fn is_fieldless(number: u8) -> bool
    ensures { result ≡ fieldless number }
{
    matches!(
        number,
        NO_VERSION | TOO_LONG | BYTES_LEFT | NO_ROOM | BAD_TABLES | BAD_SIZE
    )
}
