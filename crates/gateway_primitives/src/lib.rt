// The C interface to what is no message of its own: primitives by their kind, tagged fields, and the text check. Each answer is a struct of numbers, of the form that crates/gateway/src/lib.rt has.
#![tactic(auto)]

pub mod kinds;
pub mod primitive;
pub mod read_kind;
pub mod tagged;
pub mod text;
pub mod write_kind;

// Tagged fields: the bytes used, and how many tags there are.
#[repr(C)]
#[derive(Drop)]
pub struct TagsNumbers {
    pub number: u64,
    pub place: u64,
    pub need: u64,
    pub used: u64,
    pub tags: u64,
}

// A primitive: `form` is 2 for a value and 1 for null; `value` is the cell of a number, a count, or the start of a part; `length` is that of a part.
#[repr(C)]
#[derive(Drop)]
pub struct PrimitiveNumbers {
    pub number: u64,
    pub place: u64,
    pub need: u64,
    pub used: u64,
    pub form: u64,
    pub value: u64,
    pub length: u64,
}
