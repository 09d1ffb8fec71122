// Tagged fields in a walk to the field in which place q lies: each tag is a row of table t, with the tag at 0 and its data, with their length, at 1.
ghost use Rattle.std.specs.Prelude.{◌≡◌, false};
ghost use Rattle.layout.specs.Names.{seek};
ghost use Rattle.layout.specs.Primitives.{plain};
ghost use Rattle.layout.specs.Reading.{loop};
ghost use Rattle.body_reading.specs.Tagged.{tag_shape, tags_if};
ghost use Rattle.body_reading.specs.Walk.{item_count, on};
ghost use Rattle.names.specs.AtOnce.{InAnyRow};
ghost use Rattle.names.specs.Walks.{count_up_to, element, of_counted, of_sought};

use crate::fields::{after_count, data, varint};
use crate::runs::advance;
use crate::{Found, Sought, begin};
use body_reading::places::varint_at;
use primitives::Taken;

// The number of tags.
#[tactic(auto, using(crate::proofs::Ways::tag_count))]
pub fn count(s: &[u8], p: usize, q: usize) -> Option<Taken<u64>>
    ensures { of_counted result ≡ count_up_to q (on (item_count false plain) s.now p) }
{
    after_count(varint_at(s, p), q)
}

// The place after the tag at p, or the position of its field in which q lies.
fn tag(s: &[u8], p: usize, q: usize) -> Result<usize, u64>
    ensures { InAnyRow q s.now p result }
{
    let n = varint(s, p, q).ok_or(0_u64)?;
    data(s, n, q).ok_or(1)
}

// `count` tags from place p on. The rows of all that are passed are begun at once, at the end, which is quicker than `rows`.
pub fn tags(s: &[u8], p: usize, q: usize, t: usize, count: u64, begun: &mut [u64]) -> Sought
    ensures { of_sought begun.new result ≡ on (loop count (element q tag_shape t) begun.old) s.now p }
{
    let mut next = p;
    for passed in 0..count {
        match tag(s, next, q) {
            Ok(n) => next = n,
            Err(field) => {
                advance(begun, t, passed);
                let row = begin(begun, t);
                return Err(Found { row, field });
            }
        }
    }
    advance(begun, t, count);
    Ok(next)
}

// The tagged fields at p, where the version has them, field `field` of row `row`.
pub fn tags_if(
    s: &[u8],
    p: usize,
    q: usize,
    flexible: bool,
    t: usize,
    row: u64,
    field: u64,
    begun: &mut [u64],
) -> Sought
    ensures { of_sought begun.new result ≡ on (seek q (tags_if flexible t) row field begun.old) s.now p }
{
    if !flexible {
        return Ok(p);
    }
    let Taken { value, next } = count(s, p, q).ok_or(Found { row, field })?;
    tags(s, next, q, t, value, begun)
}
