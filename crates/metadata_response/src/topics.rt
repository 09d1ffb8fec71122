// The topics of a Metadata response: each row, and its partitions after it.
ghost use Rattle.std.specs.Prelude.{◌≡◌, false, []};
ghost use Rattle.layout.specs.Reading.{loop};
ghost use Rattle.body_reading.specs.Walk.{Runs, on, row_from, walk};
ghost use Rattle.metadata_response.specs.TopicShapes.{topic_front, topic_shape};
ghost use Rattle.metadata_response.specs.TopicWalks.{in_topics, no_marks, of_topic_row, topics_is};

use crate::marks::Marks;
use crate::partitions::partitions_in;
use body_reading::places::{int16_at, items_at, string_at};
use body_reading::tables::store_row;
use body_reading::versioned::boolean_if;
use primitives::{Read, Span, Taken};

// The fields of a topic in front of its partitions; `internal` is a cell, that of -1 where the version lacks it.
#[derive(Clone, Copy)]
pub(crate) struct TopicRow {
    pub error: u64,
    pub name: Span,
    pub internal: u64,
}

// `flagged`: the version tells internal topics.
fn topic_row(s: &[u8], p: usize, flagged: bool) -> Read<TopicRow>
    ensures { of_topic_row result ≡ on (row_from [] (topic_front flagged)) s.now p }
{
    let error = int16_at(s, p)?;
    let name = string_at(s, error.next)?;
    let internal = boolean_if(s, name.next, flagged)?;
    Ok(Taken {
        value: TopicRow {
            error: error.value,
            name: name.value,
            internal: internal.value,
        },
        next: internal.next,
    })
}

// One topic into the tables, where there is room.
fn topic_at(
    s: &[u8],
    p: usize,
    flagged: bool,
    topics: &mut [u64],
    partitions: &mut [u64],
    replicas: &mut [u64],
    synced: &mut [u64],
    marks: Marks,
) -> Read<Marks>
    ensures { Runs (λ e. walk false (topic_shape flagged) 2) s.now p (in_topics topics.old partitions.old replicas.old synced.old marks) (topics_is topics.new partitions.new replicas.new synced.new result) }
{
    let row = topic_row(s, p, flagged)?;
    let count = items_at(s, row.next, false, false)?;
    let name = row.value.name;
    let after = store_row(
        topics,
        marks.topics,
        [
            row.value.error,
            name.start as u64,
            name.len as u64,
            row.value.internal,
            count.value,
        ],
    );
    let stored = Marks {
        topics: after,
        ..marks
    };
    partitions_in(
        s,
        count.next,
        count.value,
        partitions,
        replicas,
        synced,
        stored,
    )
}

// `count` topics from place p on, from the start of the tables on. The bytes end long before a count that they cannot hold.
pub(crate) fn topics_in(
    s: &[u8],
    p: usize,
    flagged: bool,
    count: u64,
    topics: &mut [u64],
    partitions: &mut [u64],
    replicas: &mut [u64],
    synced: &mut [u64],
) -> Read<Marks>
    ensures { Runs (λ e. loop count (walk false (topic_shape flagged) 2)) s.now p (in_topics topics.old partitions.old replicas.old synced.old no_marks) (topics_is topics.new partitions.new replicas.new synced.new result) }
{
    let mut all = Taken {
        value: Marks {
            topics: 0,
            partitions: 0,
            replicas: 0,
            synced: 0,
        },
        next: p,
    };
    for _ in 0..count {
        all = topic_at(
            s, all.next, flagged, topics, partitions, replicas, synced, all.value,
        )?;
    }
    Ok(all)
}
