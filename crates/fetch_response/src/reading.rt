// The calls: a measure of the message, and a read in which topics, partitions and aborted transactions go to a lent table each.
ghost use Rattle.std.specs.Prelude.{◌≡◌, false, [], ◌∷◌, ◌≤◌, pos, length};
ghost use Rattle.layout.specs.Answers.{prefix_read, seen, widths};
ghost use Rattle.layout.specs.Messages.Fetch as Fetch;
ghost use Rattle.body_reading.specs.Meter.{metered, short};
ghost use Rattle.fetch_response.specs.Answers.{of_measure, of_response_reply, of_room, sizes};

use crate::ResponseReply;
use crate::body::{Walked, body_at};
use crate::marks::Marks;
use body_reading::walks::admit;
use primitives::{Refusal, Taken, no_room, version_of};

// A walk whose tables are dropped.
fn walked(msg: &[u8], v: u64) -> Result<Walked, Refusal>
    requires { (v ≤ 4) × (length msg.now ≤ 1048576) }
    ensures { of_measure result ≡ metered (seen false Fetch.response (pos v) msg.now) }
{
    let mut topics = [0u64; 1];
    let mut partitions = [0u64; 1];
    let mut aborted = [0u64; 1];
    body_at(msg, v, &mut topics, &mut partitions, &mut aborted)
}

// What a prefix read would say but for room: the body, the bytes used, and the cells of each table.
pub fn measure(msg: &[u8], version: i64) -> Result<Walked, Refusal>
    ensures { of_measure result ≡ metered (seen false Fetch.response version msg.now) }
{
    let v = admit(version, 4, msg.len())?;
    walked(msg, v)
}

// The rows that the first table too small needs. In table order: the cells that there will be, and the cells lent.
fn room_for(marks: Marks, t: usize, p: usize, a: usize) -> Option<usize>
    ensures { of_room result ≡ short (widths Fetch.response) (sizes marks) (t ∷ p ∷ a ∷ []) }
{
    if t / 3 < marks.topics / 3 {
        return Some(marks.topics / 3);
    }
    if p / 7 < marks.partitions / 7 {
        return Some(marks.partitions / 7);
    }
    if a / 2 < marks.aborted / 2 {
        return Some(marks.aborted / 2);
    }
    None
}

// A prefix read, as the Rust reads. The tables are left as they were where it refuses, and what is behind the rows filled where it does not.
pub fn read(
    msg: &[u8],
    version: i64,
    topics: &mut [u64],
    partitions: &mut [u64],
    aborted: &mut [u64],
) -> ResponseReply
    ensures { (of_response_reply result, topics.new ∷ partitions.new ∷ aborted.new ∷ []) ≡ prefix_read Fetch.response version (topics.old ∷ partitions.old ∷ aborted.old ∷ []) msg.now }
{
    let seen = measure(msg, version)?;
    if let Some(rows) = room_for(seen.marks, topics.len(), partitions.len(), aborted.len()) {
        return Err(no_room(rows));
    }
    // The second walk answers what the first did.
    let _ = body_at(msg, version_of(version), topics, partitions, aborted);
    Ok(Taken {
        value: seen.body,
        next: seen.next,
    })
}
