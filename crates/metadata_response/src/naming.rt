// The field of a Metadata response in which place q lies: its brokers, its topics, their partitions, and the nodes of these.
ghost use Rattle.std.specs.Prelude.{true, ◌≡◌, ◌<◌, leb};
ghost use Rattle.layout.specs.Answers.{none_yet};
ghost use Rattle.layout.specs.Names.{name_at, seek};
ghost use Rattle.layout.specs.Primitives.{empty, fixed, kept, w32};
ghost use Rattle.layout.specs.Reading.{nowhere};
ghost use Rattle.layout.specs.Rows.{array, end};
ghost use Rattle.primitives.specs.Answers.{of_refusal};
ghost use Rattle.body_reading.specs.Walk.{on};
ghost use Rattle.names.specs.Walks.{Flat, of_named, of_sought};
ghost use Rattle.metadata_response.specs.Brokers.{broker_shape};
ghost use Rattle.metadata_response.specs.Seek.{controller_shape, topics_shape};
ghost use Rattle.metadata_response.specs.Shapes.{body_shape, tail_shape};
ghost use Rattle.metadata_response.specs.TopicShapes.{node_shape, partition_shape, topic_shape};

use names::fields::{count, flag, int16, int32, nullable_string, string};
use names::runs::Element;
use names::{
    Found, METADATA_RESPONSE, Named, Sought, is_fieldless, named_by, rows, runs, without_field,
};
use primitives::{MINUS_ONE, Refusal};

const BROKERS: usize = 1;

const TOPICS: usize = 2;

const PARTITIONS: usize = 3;

const REPLICAS: usize = 4;

const IN_SYNC: usize = 5;

fn broker(s: &[u8], p: usize, q: usize, racked: bool, row: u64) -> Sought
    ensures { Flat q (broker_shape racked) row s.now p result }
{
    let p = int32(s, p, q).ok_or(Found { row, field: 0 })?;
    let p = string(s, p, q).ok_or(Found { row, field: 1 })?;
    let p = int32(s, p, q).ok_or(Found { row, field: 2 })?;
    if !racked {
        return Ok(p);
    }
    nullable_string(s, p, q).ok_or(Found { row, field: 3 })
}

// ---- partitions

// The partition at p, row `row` of its table.
fn partition(s: &[u8], p: usize, q: usize, row: u64, begun: &mut [u64]) -> Sought
    ensures { of_sought begun.new result ≡ on (seek q partition_shape row 0 begun.old) s.now p }
{
    let p = int16(s, p, q).ok_or(Found { row, field: 0 })?;
    let p = int32(s, p, q).ok_or(Found { row, field: 1 })?;
    let p = int32(s, p, q).ok_or(Found { row, field: 2 })?;
    let replicas = count(s, p, q, false).ok_or(Found { row, field: 3 })?;
    let p = runs::elements(
        s,
        replicas.next,
        q,
        REPLICAS,
        replicas.value,
        Element::Int32,
        begun,
    )?;
    let in_sync = count(s, p, q, false).ok_or(Found { row, field: 4 })?;
    runs::elements(
        s,
        in_sync.next,
        q,
        IN_SYNC,
        in_sync.value,
        Element::Int32,
        begun,
    )
}

// The array of partitions at p, field `field` of the topic in row `row`.
fn partition_array(s: &[u8], p: usize, q: usize, row: u64, field: u64, begun: &mut [u64]) -> Sought
    ensures { of_sought begun.new result ≡ on (seek q (array (fixed w32 empty) 3 partition_shape end) row field begun.old) s.now p }
{
    let all = count(s, p, q, false).ok_or(Found { row, field })?;
    rows(all.next, PARTITIONS, all.value, begun, |p, row, begun| {
        partition(s, p, q, row, begun)
    })
}

// ---- topics

// The topic at p, row `row` of its table. `internal`: the version says which topics are internal.
fn topic(s: &[u8], p: usize, q: usize, internal: bool, row: u64, begun: &mut [u64]) -> Sought
    ensures { of_sought begun.new result ≡ on (seek q (topic_shape internal) row 0 begun.old) s.now p }
{
    let p = int16(s, p, q).ok_or(Found { row, field: 0 })?;
    let p = string(s, p, q).ok_or(Found { row, field: 1 })?;
    if !internal {
        return partition_array(s, p, q, row, 2, begun);
    }
    let p = flag(s, p, q).ok_or(Found { row, field: 2 })?;
    partition_array(s, p, q, row, 3, begun)
}

// ---- the body

// The array of topics at p, field `field` of the body.
fn topic_array(
    s: &[u8],
    p: usize,
    q: usize,
    internal: bool,
    field: u64,
    begun: &mut [u64],
) -> Sought
    ensures { of_sought begun.new result ≡ on (seek q (array (fixed w32 empty) 2 (topic_shape internal) end) nowhere field begun.old) s.now p }
{
    let row = MINUS_ONE;
    let all = count(s, p, q, false).ok_or(Found { row, field })?;
    rows(all.next, TOPICS, all.value, begun, |p, row, begun| {
        topic(s, p, q, internal, row, begun)
    })
}

// From the controller on, field `field` of the body.
fn controlled(s: &[u8], p: usize, q: usize, field: u64, begun: &mut [u64]) -> Sought
    requires { field < 8 }
    ensures { of_sought begun.new result ≡ on (seek q (controller_shape (topics_shape true)) nowhere field begun.old) s.now p }
{
    let row = MINUS_ONE;
    let p = int32(s, p, q).ok_or(Found { row, field })?;
    topic_array(s, p, q, true, field + 1, begun)
}

// After the brokers.
fn tail(s: &[u8], p: usize, q: usize, v: u64, field: u64, begun: &mut [u64]) -> Sought
    requires { field < 4 }
    ensures { of_sought begun.new result ≡ on (seek q (tail_shape v) nowhere field begun.old) s.now p }
{
    if v < 1 {
        return topic_array(s, p, q, false, field, begun);
    }
    if v < 2 {
        return controlled(s, p, q, field, begun);
    }
    let row = MINUS_ONE;
    let p = nullable_string(s, p, q).ok_or(Found { row, field })?;
    controlled(s, p, q, field + 1, begun)
}

// From the brokers on, field `field` of the body.
fn from_brokers(s: &[u8], p: usize, q: usize, v: u64, field: u64, begun: &mut [u64]) -> Sought
    requires { field < 2 }
    ensures { of_sought begun.new result ≡ on (seek q (array (fixed w32 empty) 1 (broker_shape (leb 1 v)) (tail_shape v)) nowhere field begun.old) s.now p }
{
    let row = MINUS_ONE;
    let all = count(s, p, q, false).ok_or(Found { row, field })?;
    let p = rows(all.next, BROKERS, all.value, begun, |p, row, _| {
        broker(s, p, q, 1 <= v, row)
    })?;
    tail(s, p, q, v, field + 1, begun)
}

fn body(s: &[u8], q: usize, v: u64, begun: &mut [u64]) -> Sought
    ensures { of_sought begun.new result ≡ on (seek q (body_shape v) nowhere 0 begun.old) s.now 0 }
{
    if v < 3 {
        return from_brokers(s, 0, q, v, 0, begun);
    }
    let row = MINUS_ONE;
    let p = int32(s, 0, q).ok_or(Found { row, field: 0 })?;
    from_brokers(s, p, q, v, 1, begun)
}

// The refusal e of a response at version v, which there is, with its name.
pub(crate) fn with_name(e: Refusal, msg: &[u8], v: u64) -> Named
    ensures { of_named result ≡ name_at 4 (body_shape v) none_yet 0 msg.now (of_refusal e) }
{
    if is_fieldless(e.number) {
        return without_field(e, METADATA_RESPONSE);
    }
    let mut begun = [0u64; 8];
    named_by(e, METADATA_RESPONSE, body(msg, e.place, v, &mut begun))
}
