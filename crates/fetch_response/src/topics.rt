// The topics of a Fetch response: each row, and its partitions after it.
ghost use Rattle.std.specs.Prelude.{false};
ghost use Rattle.layout.specs.Reading.{loop};
ghost use Rattle.body_reading.specs.Walk.{Runs, walk};
ghost use Rattle.fetch_response.specs.TopicShapes.{topic_shape};
ghost use Rattle.fetch_response.specs.TopicWalks.{in_topics, no_marks, topics_is};

use crate::marks::{Marked, Marks};
use crate::partitions::partitions_in;
use body_reading::places::{items_at, string_at};
use body_reading::tables::store_row;
use primitives::Refusal;

// One topic into the tables, where there is room.
fn topic_at(
    s: &[u8],
    p: usize,
    stable: bool,
    topics: &mut [u64],
    partitions: &mut [u64],
    aborted: &mut [u64],
    marks: Marks,
) -> Result<Marked, Refusal>
    ensures { Runs (λ e. walk false (topic_shape stable) 1) s.now p (in_topics topics.old partitions.old aborted.old marks) (topics_is topics.new partitions.new aborted.new result) }
{
    let name = string_at(s, p)?;
    let items = items_at(s, name.next, false, false)?;
    let count = items.value;
    let row = [name.value.start as u64, name.value.len as u64, count];
    let marks = Marks {
        topics: store_row(topics, marks.topics, row),
        ..marks
    };
    partitions_in(s, items.next, stable, count, partitions, aborted, marks)
}

// `count` topics from place p on, from the start of the tables on. The bytes end long before a count that they cannot hold.
// The loops over topics, partitions and aborted transactions stay three: the tables that they fill differ in number, and stand in the promise of each.
pub(crate) fn topics_in(
    s: &[u8],
    p: usize,
    stable: bool,
    count: u64,
    topics: &mut [u64],
    partitions: &mut [u64],
    aborted: &mut [u64],
) -> Result<Marked, Refusal>
    ensures { Runs (λ e. loop count (walk false (topic_shape stable) 1)) s.now p (in_topics topics.old partitions.old aborted.old no_marks) (topics_is topics.new partitions.new aborted.new result) }
{
    let mut filled = Marked {
        next: p,
        marks: Marks {
            topics: 0,
            partitions: 0,
            aborted: 0,
        },
    };
    for _ in 0..count {
        filled = topic_at(
            s,
            filled.next,
            stable,
            topics,
            partitions,
            aborted,
            filled.marks,
        )?;
    }
    Ok(filled)
}
