// The calls: a measure of the message, and a read in which brokers, topics, partitions, replicas and in-sync replicas go to a lent table each.
ghost use Rattle.std.specs.Prelude.{◌≡◌, false, [], ◌∷◌, ◌≤◌, pos, length};
ghost use Rattle.layout.specs.Answers.{prefix_read, seen, widths};
ghost use Rattle.layout.specs.Messages.Metadata as Meta;
ghost use Rattle.body_reading.specs.Meter.{metered, short};
ghost use Rattle.metadata_response.specs.Answers.{of_measure, of_response_reply, of_room, sizes};

use crate::ResponseReply;
use crate::body::{Walked, body_at};
use crate::marks::Marks;
use body_reading::walks::admit;
use primitives::{Refusal, Taken, no_room, version_of};

// A walk whose tables are dropped.
fn walked(msg: &[u8], v: u64) -> Result<Walked, Refusal>
    requires { (v ≤ 4) × (length msg.now ≤ 1048576) }
    ensures { of_measure result ≡ metered (seen false Meta.response (pos v) msg.now) }
{
    let mut brokers = [0u64; 1];
    let mut topics = [0u64; 1];
    let mut partitions = [0u64; 1];
    let mut replicas = [0u64; 1];
    let mut synced = [0u64; 1];
    body_at(
        msg,
        v,
        &mut brokers,
        &mut topics,
        &mut partitions,
        &mut replicas,
        &mut synced,
    )
}

// What a prefix read would say but for room: the body, the bytes used, and the cells of each table.
pub fn measure(msg: &[u8], version: i64) -> Result<Walked, Refusal>
    ensures { of_measure result ≡ metered (seen false Meta.response version msg.now) }
{
    let v = admit(version, 4, msg.len())?;
    walked(msg, v)
}

// The rows that the first table too small needs, if there is one. In table order: the cells that there will be, and the cells lent.
#[tactic(auto, using(crate::proofs::Replies::short_brokers, crate::proofs::Replies::short_topics, crate::proofs::Replies::short_partitions, crate::proofs::Replies::short_replicas, crate::proofs::Replies::short_synced, crate::proofs::Replies::short_nowhere))]
fn room_for(
    brokers: usize,
    marks: Marks,
    b: usize,
    t: usize,
    p: usize,
    r: usize,
    i: usize,
) -> Option<usize>
    ensures { of_room result ≡ short (widths Meta.response) (sizes brokers marks) (b ∷ t ∷ p ∷ r ∷ i ∷ []) }
{
    if b / 7 < brokers / 7 {
        return Some(brokers / 7);
    }
    if t / 5 < marks.topics / 5 {
        return Some(marks.topics / 5);
    }
    if p / 5 < marks.partitions / 5 {
        return Some(marks.partitions / 5);
    }
    if r < marks.replicas {
        return Some(marks.replicas);
    }
    if i < marks.synced {
        return Some(marks.synced);
    }
    None
}

// The tables are lent one by one, as over the C interface. A prefix read, as the Rust reads. The tables are left as they were where it refuses, and what is behind the rows filled where it does not.
pub fn read(
    msg: &[u8],
    version: i64,
    brokers: &mut [u64],
    topics: &mut [u64],
    partitions: &mut [u64],
    replicas: &mut [u64],
    synced: &mut [u64],
) -> ResponseReply
    ensures { (of_response_reply result, brokers.new ∷ topics.new ∷ partitions.new ∷ replicas.new ∷ synced.new ∷ []) ≡ prefix_read Meta.response version (brokers.old ∷ topics.old ∷ partitions.old ∷ replicas.old ∷ synced.old ∷ []) msg.now }
{
    let all = measure(msg, version)?;
    if let Some(rows) = room_for(
        all.brokers,
        all.marks,
        brokers.len(),
        topics.len(),
        partitions.len(),
        replicas.len(),
        synced.len(),
    ) {
        return Err(no_room(rows));
    }
    let v = version_of(version);
    let _ = body_at(msg, v, brokers, topics, partitions, replicas, synced);
    Ok(Taken {
        value: all.body,
        next: all.next,
    })
}
