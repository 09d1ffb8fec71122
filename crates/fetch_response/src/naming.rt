// The field of a Fetch response in which place q lies: its topics, their partitions, and the aborted transactions of these.
ghost use Rattle.std.specs.Prelude.{◌≡◌};
ghost use Rattle.layout.specs.Answers.{none_yet};
ghost use Rattle.layout.specs.Names.{name_at, seek};
ghost use Rattle.layout.specs.Primitives.{empty, fixed, w32};
ghost use Rattle.layout.specs.Reading.{nowhere};
ghost use Rattle.layout.specs.Rows.{array, end};
ghost use Rattle.primitives.specs.Answers.{of_refusal};
ghost use Rattle.body_reading.specs.Walk.{on};
ghost use Rattle.names.specs.Walks.{of_named, of_sought};
ghost use Rattle.fetch_response.specs.Seek.{stable_shape};
ghost use Rattle.fetch_response.specs.Shapes.{body_shape};
ghost use Rattle.fetch_response.specs.TopicShapes.{partition_shape, topic_shape};

use names::fields::{count, int16, int32, int64, records, string};
use names::runs::Element;
use names::{
    FETCH_RESPONSE, Found, Named, Sought, is_fieldless, named_by, rows, runs, without_field,
};
use primitives::{MINUS_ONE, Refusal};

const TOPICS: usize = 1;

const PARTITIONS: usize = 2;

const ABORTED: usize = 3;

// The fields of a partition from the last stable offset on.
fn stable_fields(s: &[u8], p: usize, q: usize, row: u64, begun: &mut [u64]) -> Sought
    ensures { of_sought begun.new result ≡ on (seek q stable_shape row 3 begun.old) s.now p }
{
    let p = int64(s, p, q).ok_or(Found { row, field: 3 })?;
    let aborted = count(s, p, q, false).ok_or(Found { row, field: 4 })?;
    let p = runs::elements(
        s,
        aborted.next,
        q,
        ABORTED,
        aborted.value,
        Element::Int64Pair,
        begun,
    )?;
    records(s, p, q).ok_or(Found { row, field: 5 })
}

// The partition at p, row `row` of its table.
fn partition(s: &[u8], p: usize, q: usize, stable: bool, row: u64, begun: &mut [u64]) -> Sought
    ensures { of_sought begun.new result ≡ on (seek q (partition_shape stable) row 0 begun.old) s.now p }
{
    let p = int32(s, p, q).ok_or(Found { row, field: 0 })?;
    let p = int16(s, p, q).ok_or(Found { row, field: 1 })?;
    let p = int64(s, p, q).ok_or(Found { row, field: 2 })?;
    if stable {
        return stable_fields(s, p, q, row, begun);
    }
    records(s, p, q).ok_or(Found { row, field: 3 })
}

// The topic at p, row `row` of its table.
fn topic(s: &[u8], p: usize, q: usize, stable: bool, row: u64, begun: &mut [u64]) -> Sought
    ensures { of_sought begun.new result ≡ on (seek q (topic_shape stable) row 0 begun.old) s.now p }
{
    let p = string(s, p, q).ok_or(Found { row, field: 0 })?;
    let all = count(s, p, q, false).ok_or(Found { row, field: 1 })?;
    rows(all.next, PARTITIONS, all.value, begun, |p, row, begun| {
        partition(s, p, q, stable, row, begun)
    })
}

// The array of topics at p, field `field` of the body.
fn responses(s: &[u8], p: usize, q: usize, stable: bool, field: u64, begun: &mut [u64]) -> Sought
    ensures { of_sought begun.new result ≡ on (seek q (array (fixed w32 empty) 1 (topic_shape stable) end) nowhere field begun.old) s.now p }
{
    let row = MINUS_ONE;
    let all = count(s, p, q, false).ok_or(Found { row, field })?;
    rows(all.next, TOPICS, all.value, begun, |p, row, begun| {
        topic(s, p, q, stable, row, begun)
    })
}

fn body(s: &[u8], q: usize, v: u64, begun: &mut [u64]) -> Sought
    ensures { of_sought begun.new result ≡ on (seek q (body_shape v) nowhere 0 begun.old) s.now 0 }
{
    if v < 1 {
        return responses(s, 0, q, false, 0, begun);
    }
    let row = MINUS_ONE;
    let p = int32(s, 0, q).ok_or(Found { row, field: 0 })?;
    responses(s, p, q, 4 <= v, 1, begun)
}

// The refusal e of a response at version v, which there is, with its name.
pub(crate) fn with_name(e: Refusal, msg: &[u8], v: u64) -> Named
    ensures { of_named result ≡ name_at 6 (body_shape v) none_yet 0 msg.now (of_refusal e) }
{
    if is_fieldless(e.number) {
        return without_field(e, FETCH_RESPONSE);
    }
    let mut begun = [0u64; 8];
    named_by(e, FETCH_RESPONSE, body(msg, e.place, v, &mut begun))
}
