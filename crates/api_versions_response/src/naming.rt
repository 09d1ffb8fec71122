// The field of an ApiVersions response in which the place of a refusal lies: its items, the throttle time, and the tagged fields of the items and of the body.
ghost use Rattle.std.specs.Prelude.{true, ◌≡◌, leb};
ghost use Rattle.layout.specs.Answers.{none_yet};
ghost use Rattle.layout.specs.Names.{name_at, seek};
ghost use Rattle.layout.specs.Reading.{loop, nowhere};
ghost use Rattle.primitives.specs.Answers.{of_refusal};
ghost use Rattle.body_reading.specs.Walk.{on};
ghost use Rattle.names.specs.Walks.{element, of_named, of_sought};
ghost use Rattle.api_versions_response.specs.ItemShapes.{key_shape};
ghost use Rattle.api_versions_response.specs.Seek.{Passes};
ghost use Rattle.api_versions_response.specs.Shapes.{body_shape, tail_shape};

use crate::items::is_bare;
use names::fields::{count, int16, int32};
use names::runs::Element;
use names::tags::tags_if;
use names::{
    API_VERSIONS_RESPONSE, Found, Named, Sought, is_fieldless, named_by, rows, runs, without_field,
};
use primitives::{MINUS_ONE, Refusal};

const ITEMS: usize = 1;

const TAGS: usize = 2;

// ---- the items

// Has the item at p no tags, and is q after it? Most items are passed over so.
fn is_passed(s: &[u8], p: usize, q: usize) -> bool
    ensures { Passes q s.now p result }
{
    p < q.saturating_sub(6) && is_bare(s, p, true)
}

// The item at p of version 3, row `row` of its table.
fn item(s: &[u8], p: usize, q: usize, row: u64, begun: &mut [u64]) -> Sought
    ensures { of_sought begun.new result ≡ on (seek q (key_shape true) row 0 begun.old) s.now p }
{
    if is_passed(s, p, q) {
        return Ok(p + 7);
    }
    let p = int16(s, p, q).ok_or(Found { row, field: 0 })?;
    let p = int16(s, p, q).ok_or(Found { row, field: 1 })?;
    let p = int16(s, p, q).ok_or(Found { row, field: 2 })?;
    tags_if(s, p, q, true, TAGS, row, 3, begun)
}

// Items without tags are three numbers each.
fn items(s: &[u8], p: usize, q: usize, flexible: bool, count: u64, begun: &mut [u64]) -> Sought
    ensures { of_sought begun.new result ≡ on (loop count (element q (key_shape flexible) 1) begun.old) s.now p }
{
    if flexible {
        return rows(p, ITEMS, count, begun, |p, row, begun| {
            item(s, p, q, row, begun)
        });
    }
    runs::elements(s, p, q, ITEMS, count, Element::Int16Triple, begun)
}

// ---- the body

// After the items.
fn tail(s: &[u8], p: usize, q: usize, v: u64, begun: &mut [u64]) -> Sought
    ensures { of_sought begun.new result ≡ on (seek q (tail_shape (leb 1 v) (leb 3 v)) nowhere 2 begun.old) s.now p }
{
    if v < 1 {
        return Ok(p);
    }
    let row = MINUS_ONE;
    let p = int32(s, p, q).ok_or(Found { row, field: 2 })?;
    tags_if(s, p, q, 3 <= v, TAGS, row, 3, begun)
}

fn body(s: &[u8], q: usize, v: u64, begun: &mut [u64]) -> Sought
    ensures { of_sought begun.new result ≡ on (seek q (body_shape (leb 1 v) (leb 3 v)) nowhere 0 begun.old) s.now 0 }
{
    let row = MINUS_ONE;
    let p = int16(s, 0, q).ok_or(Found { row, field: 0 })?;
    let all = count(s, p, q, 3 <= v).ok_or(Found { row, field: 1 })?;
    let p = items(s, all.next, q, 3 <= v, all.value, begun)?;
    tail(s, p, q, v, begun)
}

// The refusal e of a response at version v, which there is, with its name.
pub(crate) fn with_name(e: Refusal, msg: &[u8], v: u64) -> Named
    ensures { of_named result ≡ name_at 2 (body_shape (leb 1 v) (leb 3 v)) none_yet 0 msg.now (of_refusal e) }
{
    if is_fieldless(e.number) {
        return without_field(e, API_VERSIONS_RESPONSE);
    }
    let mut begun = [0u64; 8];
    named_by(e, API_VERSIONS_RESPONSE, body(msg, e.place, v, &mut begun))
}
