// The walk over the body of a response: the same for a measure and for filling the tables.
ghost use Rattle.std.specs.Prelude.{◌≡◌, false, [], ◌∷◌};
ghost use Rattle.body_reading.specs.Store.{own, tab};
ghost use Rattle.body_reading.specs.Walk.{Runs, on, row_from, walk};
ghost use Rattle.metadata_response.specs.Shapes.{body_shape, middle_shape, tail_shape};
ghost use Rattle.metadata_response.specs.Walks.{behind_brokers, of_middle, of_tail, of_walked};

use crate::ResponseBody;
use crate::brokers::brokers_in;
use crate::marks::Marks;
use crate::topics::topics_in;
use body_reading::places::items_at;
use body_reading::versioned::{front_of, int32_if, nullable_string_if};
use primitives::{Field, Read, Refusal, Taken};

// What stands between brokers and topics.
#[derive(Clone, Copy)]
pub struct Middle {
    pub cluster: Field,
    pub controller: Option<u64>,
}

// What stands after the brokers, the place after it, and the marks of the topics' tables.
#[derive(Clone, Copy)]
pub struct Tail {
    pub cluster: Field,
    pub controller: Option<u64>,
    pub topics: u64,
    pub next: usize,
    pub marks: Marks,
}

// A body, the place after it, and the marks of the tables.
#[derive(Clone, Copy)]
pub struct Walked {
    pub body: ResponseBody,
    pub next: usize,
    pub brokers: usize,
    pub marks: Marks,
}

fn middle_at(s: &[u8], p: usize, v: u64) -> Read<Middle>
    ensures { of_middle result ≡ on (row_from [] (middle_shape v)) s.now p }
{
    let cluster = nullable_string_if(s, p, 2 <= v)?;
    let controller = int32_if(s, cluster.next, 1 <= v)?;
    Ok(Taken {
        value: Middle {
            cluster: cluster.value,
            controller: controller.value,
        },
        next: controller.next,
    })
}

// Cluster, controller, and topics.
fn tail_at(
    s: &[u8],
    p: usize,
    v: u64,
    topics: &mut [u64],
    partitions: &mut [u64],
    replicas: &mut [u64],
    synced: &mut [u64],
) -> Result<Tail, Refusal>
    ensures { Runs (λ e. walk false (tail_shape v) 0) s.now p (behind_brokers topics.old partitions.old replicas.old synced.old) (of_tail topics.new partitions.new replicas.new synced.new result) }
{
    let middle = middle_at(s, p, v)?;
    let count = items_at(s, middle.next, false, false)?;
    let rows = topics_in(
        s,
        count.next,
        1 <= v,
        count.value,
        topics,
        partitions,
        replicas,
        synced,
    )?;
    Ok(Tail {
        cluster: middle.value.cluster,
        controller: middle.value.controller,
        topics: count.value,
        next: rows.next,
        marks: rows.value,
    })
}

pub(crate) fn body_at(
    s: &[u8],
    v: u64,
    brokers: &mut [u64],
    topics: &mut [u64],
    partitions: &mut [u64],
    replicas: &mut [u64],
    synced: &mut [u64],
) -> Result<Walked, Refusal>
    ensures { of_walked brokers.new topics.new partitions.new replicas.new synced.new result ≡ on (walk false (body_shape v) 0 (own [] ∷ tab brokers.old 0 ∷ tab topics.old 0 ∷ tab partitions.old 0 ∷ tab replicas.old 0 ∷ tab synced.old 0 ∷ [])) s.now 0 }
{
    let front = front_of(s, 3 <= v)?;
    let rows = brokers_in(s, front.next, 1 <= v, front.count, brokers)?;
    let tail = tail_at(s, rows.next, v, topics, partitions, replicas, synced)?;
    Ok(Walked {
        body: ResponseBody {
            throttle: front.throttle,
            brokers: front.count,
            cluster: tail.cluster,
            controller: tail.controller,
            topics: tail.topics,
        },
        next: tail.next,
        brokers: rows.mark,
        marks: tail.marks,
    })
}
