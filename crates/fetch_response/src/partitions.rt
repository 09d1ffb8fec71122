// The partitions of a topic, each with its aborted transactions and its records.
ghost use Rattle.std.specs.Prelude.{◌≡◌, false, []};
ghost use Rattle.layout.specs.Reading.{loop};
ghost use Rattle.body_reading.specs.Walk.{Runs, on, row_from, walk};
ghost use Rattle.fetch_response.specs.TopicShapes.{partition_front, partition_shape};
ghost use Rattle.fetch_response.specs.TopicWalks.{in_partitions, of_partition_row, partitions_is};

use crate::aborted::aborted_at;
use crate::marks::{Marked, Marks};
use body_reading::places::{int16_at, int32_at, int64_at, records_at};
use body_reading::tables::store_row;
use body_reading::versioned::int64_if;
use primitives::Refusal;

// The numbers of a partition, and the place after them; `offset` is the last stable one, a cell, that of -1 where the version lacks it.
#[derive(Clone, Copy)]
pub(crate) struct PartitionRow {
    pub index: u64,
    pub error: u64,
    pub watermark: u64,
    pub offset: u64,
    pub next: usize,
}

// `stable`: the version tells the last stable offset and aborted transactions. A flag: two fields of one layout ask for it, so that closures would be no plainer.
fn partition_row(s: &[u8], p: usize, stable: bool) -> Result<PartitionRow, Refusal>
    ensures { of_partition_row result ≡ on (row_from [] (partition_front stable)) s.now p }
{
    let index = int32_at(s, p)?;
    let error = int16_at(s, index.next)?;
    let watermark = int64_at(s, error.next)?;
    let offset = int64_if(s, watermark.next, stable)?;
    Ok(PartitionRow {
        index: index.value,
        error: error.value,
        watermark: watermark.value,
        offset: offset.value,
        next: offset.next,
    })
}

// One partition into the tables, where there is room.
fn partition_at(
    s: &[u8],
    p: usize,
    stable: bool,
    partitions: &mut [u64],
    aborted: &mut [u64],
    marks: Marks,
) -> Result<Marked, Refusal>
    ensures { Runs (λ e. walk false (partition_shape stable) 2) s.now p (in_partitions partitions.old aborted.old marks) (partitions_is partitions.new aborted.new result) }
{
    let numbers = partition_row(s, p, stable)?;
    let pairs = aborted_at(s, numbers.next, stable, aborted, marks.aborted)?;
    let records = records_at(s, pairs.next)?;
    let row = [
        numbers.index,
        numbers.error,
        numbers.watermark,
        numbers.offset,
        pairs.count,
        records.value.start as u64,
        records.value.len as u64,
    ];
    Ok(Marked {
        next: records.next,
        marks: Marks {
            topics: marks.topics,
            partitions: store_row(partitions, marks.partitions, row),
            aborted: pairs.mark,
        },
    })
}

// `count` partitions from place p on.
pub(crate) fn partitions_in(
    s: &[u8],
    p: usize,
    stable: bool,
    count: u64,
    partitions: &mut [u64],
    aborted: &mut [u64],
    marks: Marks,
) -> Result<Marked, Refusal>
    ensures { Runs (λ e. loop count (walk false (partition_shape stable) 2)) s.now p (in_partitions partitions.old aborted.old marks) (partitions_is partitions.new aborted.new result) }
{
    let mut filled = Marked { next: p, marks };
    for _ in 0..count {
        filled = partition_at(s, filled.next, stable, partitions, aborted, filled.marks)?;
    }
    Ok(filled)
}
