// Elements that are some numbers of one width each: they are passed over at once, and the number in which a place lies is found by a division.
ghost use Rattle.std.specs.Prelude.{◌≡◌, ◌-◌, min, length};
ghost use Rattle.layout.specs.Primitives.{size};
ghost use Rattle.layout.specs.Reading.{loop};
ghost use Rattle.body_reading.specs.Walk.{on};
ghost use Rattle.names.specs.Walks.{element as walked, element_shape, many_begun, numbers_of, of_sought, width_of};

use crate::{Found, Sought, begin};

// The bytes from p on that are there, up to q.
pub fn bytes_up_to(s: &[u8], p: usize, q: usize) -> usize
    ensures { result ≡ min (q - p) (length s.now - p) }
{
    q.saturating_sub(p).min(s.len().saturating_sub(p))
}

// n more rows of table t.
#[tactic(auto, using(crate::proofs::Divided::advanced, crate::proofs::Divided::advanced_none, crate::proofs::Divided::advanced_out))]
pub(crate) fn advance(begun: &mut [u64], t: usize, n: u64)
    ensures { begun.new ≡ many_begun n t begun.old }
{
    if n == 0 {
        return;
    }
    if t < begun.len() {
        begun[t] = begun[t].wrapping_add(n);
    }
}

// What the elements of an array are. An enum and no const parameters: `elements` may ask nothing of its callers, and it rests on a number and a width that are not 0.
#[derive(Clone, Copy)]
pub enum Element {
    Int32,
    Int64Pair,
    Int16Triple,
}

impl Element {
    fn numbers(self) -> usize
        ensures { result ≡ numbers_of self }
    {
        match self {
            Element::Int32 => 1,
            Element::Int64Pair => 2,
            Element::Int16Triple => 3,
        }
    }

    // The bytes of each number.
    fn width(self) -> usize
        ensures { result ≡ size (width_of self) }
    {
        match self {
            Element::Int32 => 4,
            Element::Int64Pair => 8,
            Element::Int16Triple => 2,
        }
    }
}

// `count` elements from place p on. A number that is cut stops the walk as one in which q lies.
pub fn elements(
    s: &[u8],
    p: usize,
    q: usize,
    t: usize,
    count: u64,
    element: Element,
    begun: &mut [u64],
) -> Sought
    ensures { of_sought begun.new result ≡ on (loop count (walked q (element_shape element) t) begun.old) s.now p }
{
    let each = element.numbers();
    let width = element.width();
    let i = bytes_up_to(s, p, q) / width;
    let rows = (i / each) as u64;
    if rows < count {
        advance(begun, t, rows);
        let row = begin(begun, t);
        return Err(Found {
            row,
            field: (i % each) as u64,
        });
    }
    advance(begun, t, count);
    Ok(p + count as usize * each * width)
}
