// Primitives by the number of their kind, as a caller that has only numbers asks for them: what a read answers, for every kind.
// specs/Kinds.antt lists the kinds; `read_kind` reads one and `write_kind` writes one.
use primitives::Read;

// A primitive that was read. `form` is 2 for a value and 1 for null; `value` is the cell of a number, a count, or the start of a part of the message;
// `length` is that of a part. Numbers and no enum: the C interface has them so.
#[derive(Clone, Copy)]
pub struct Shown {
    pub form: u64,
    pub value: u64,
    pub length: u64,
}

// What a read answers.
pub type Reply = Read<Shown>;
