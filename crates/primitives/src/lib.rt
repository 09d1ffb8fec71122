// A primitive read at the front of what is left of a message; and what all calls share: refusals, versions, and the size that is taken.
// `numbers`, `lengths`, `parts` and `texts` read, `shown` hands out a part of a message. Each primitive by itself, with the message's size checked first, is in `primitives_calls`.
#![tactic(auto)]

ghost use Rattle.std.specs.Prelude.{◌≡◌};
ghost use Rattle.layout.specs.Reading.{because, no_room};
ghost use Rattle.primitives.specs.Answers.{is_set, of_refusal, version_of};

pub mod lengths;
pub mod numbers;
pub mod parts;
pub mod shown;
pub mod signs;
pub mod texts;

// The numbers of docs/RULES.md, section 10.
pub const NO_VERSION: u8 = 1;

pub const TOO_LONG: u8 = 2;

pub const BYTES_END: u8 = 3;

pub const LENGTH_BELOW: u8 = 4;

pub const VARINT_CONTINUES: u8 = 5;

pub const LENGTH_ZERO: u8 = 6;

pub const NOT_TEXT: u8 = 7;

pub const NULL_ITEMS: u8 = 8;

pub const BYTES_LEFT: u8 = 9;

pub const NO_ROOM: u8 = 10;

pub const TOO_WIDE: u8 = 11;

// 12 has no case: a seven-bit group always fits a byte.
pub const BAD_TABLES: u8 = 13;

pub const BAD_SIZE: u8 = 14;

// The cell of -1: what is unset or absent, or null, where a cell says how many.
pub const MINUS_ONE: u64 = 18446744073709551615;

// No message and no written body has more bytes.
pub const MOST: usize = 1048576;

// Why a call refuses: the number, the place in the message, and for NO_ROOM the rows or bytes needed.
#[derive(Clone, Copy)]
pub struct Refusal {
    pub number: u8,
    pub place: usize,
    pub need: usize,
}

// What was read, and the place after it: from the start of what the reader was given.
#[derive(Clone, Copy)]
pub struct Taken<T> {
    pub value: T,
    pub next: usize,
}

// What a reader answers.
pub type Read<T> = Result<Taken<T>, Refusal>;

// A refusal at a place, with no need.
pub fn at(number: u8, place: usize) -> Refusal
    ensures { of_refusal result ≡ because number place }
{
    Refusal {
        number,
        place,
        need: 0,
    }
}

// A refusal for want of room, with the rows or bytes needed.
pub fn no_room(need: usize) -> Refusal
    ensures { of_refusal result ≡ no_room need }
{
    Refusal {
        number: NO_ROOM,
        place: 0,
        need,
    }
}

// A version as a number to compare with a message's last one.
pub fn version_of(version: i64) -> u64
    ensures { result ≡ version_of version }
{
    if version < 0 {
        return 65536;
    }
    version as u64
}

// 0 is false, any other number true.
pub fn is_set(n: u64) -> bool
    ensures { result ≡ is_set n }
{
    n != 0
}

// A part of the message: a text, or data.
#[derive(Clone, Copy)]
pub struct Span {
    pub start: usize,
    pub len: usize,
}

// A text or data that a version may lack and that may be null.
#[derive(Clone, Copy)]
pub enum Field {
    Absent,
    Null,
    Present(Span),
}
