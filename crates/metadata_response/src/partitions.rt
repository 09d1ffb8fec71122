// The partitions of a topic, each with its two arrays of nodes.
ghost use Rattle.std.specs.Prelude.{◌≡◌, false, [], ◌+◌, ◌<◌, length};
ghost use Rattle.layout.specs.Reading.{bad, loop};
ghost use Rattle.primitives.specs.Answers.{of_refusal};
ghost use Rattle.body_reading.specs.Walk.{Runs, on, row_from, walk};
ghost use Rattle.metadata_response.specs.TopicShapes.{partition_front, partition_shape};
ghost use Rattle.metadata_response.specs.TopicWalks.{RowStored, in_partitions, of_partition_row, partitions_is};

use crate::marks::Marks;
use crate::nodes::nodes_at;
use crate::numbers::{int16_there, int32_there};
use body_reading::tables::{less, skip4, store, store_row};
use primitives::{BYTES_END, Read, Refusal, Taken, at};

// The numbers of a partition.
#[derive(Clone, Copy)]
pub(crate) struct PartitionRow {
    pub error: u64,
    pub index: u64,
    pub leader: u64,
}

// Not all bytes of a partition's numbers are there: the first number that is not whole is refused.
#[tactic(auto, using(crate::proofs::PartitionCells::error_missing, crate::proofs::PartitionCells::index_missing, crate::proofs::PartitionCells::leader_missing))]
fn row_missing(s: &[u8], p: usize) -> Refusal
    requires { length s.now < p + 10 }
    ensures { bad (of_refusal result) ≡ on (row_from [] partition_front) s.now p }
{
    let there = less(s.len(), p);
    if there < 2 {
        return at(BYTES_END, p);
    }
    if there < 6 {
        return at(BYTES_END, p + 2);
    }
    at(BYTES_END, p + 6)
}

// An INT16 and two INT32, each given what the one before it left: their ten bytes are asked for at once.
#[tactic(auto, using(crate::proofs::PartitionCells::numbers_left))]
fn partition_row(s: &[u8], p: usize) -> Read<PartitionRow>
    ensures { of_partition_row result ≡ on (row_from [] partition_front) s.now p }
{
    if p < less(s.len(), 9) {
        let rest = &s[p..];
        return Ok(Taken {
            value: PartitionRow {
                error: int16_there(rest),
                index: int32_there(&rest[2..]),
                leader: int32_there(&rest[6..]),
            },
            next: p + 10,
        });
    }
    Err(row_missing(s, p))
}

// The row of the partition at p. Its numbers are read again, and only where there is room: to keep them while its arrays are read costs more.
fn store_partition(
    s: &[u8],
    p: usize,
    table: &mut [u64],
    mark: usize,
    count: u64,
    synced: u64,
) -> usize
    ensures { RowStored s.now p table.old mark count synced table.new result }
{
    if table.len() <= mark {
        return store(table, skip4(mark), synced);
    }
    match partition_row(s, p) {
        Ok(
            Taken {
                value: row,
                next: _,
            },
        ) => {
            store_row(
                table,
                mark,
                [row.error, row.index, row.leader, count, synced],
            )
        }
        // never: it was read before its arrays were
        Err(_) => mark,
    }
}

// One partition into the tables, where there is room.
fn partition_at(
    s: &[u8],
    p: usize,
    partitions: &mut [u64],
    replicas: &mut [u64],
    synced: &mut [u64],
    marks: Marks,
) -> Read<Marks>
    ensures { Runs (λ e. walk false partition_shape 3) s.now p (in_partitions partitions.old replicas.old synced.old marks) (partitions_is partitions.new replicas.new synced.new result) }
{
    let row = partition_row(s, p)?;
    let nodes = nodes_at(s, row.next, replicas, marks.replicas)?;
    let in_sync = nodes_at(s, nodes.next, synced, marks.synced)?;
    let after = store_partition(
        s,
        p,
        partitions,
        marks.partitions,
        nodes.count,
        in_sync.count,
    );
    Ok(Taken {
        value: Marks {
            topics: marks.topics,
            partitions: after,
            replicas: nodes.mark,
            synced: in_sync.mark,
        },
        next: in_sync.next,
    })
}

// `count` partitions from place p on.
pub(crate) fn partitions_in(
    s: &[u8],
    p: usize,
    count: u64,
    partitions: &mut [u64],
    replicas: &mut [u64],
    synced: &mut [u64],
    marks: Marks,
) -> Read<Marks>
    ensures { Runs (λ e. loop count (walk false partition_shape 3)) s.now p (in_partitions partitions.old replicas.old synced.old marks) (partitions_is partitions.new replicas.new synced.new result) }
{
    let mut all = Taken {
        value: marks,
        next: p,
    };
    for _ in 0..count {
        all = partition_at(s, all.next, partitions, replicas, synced, all.value)?;
    }
    Ok(all)
}
