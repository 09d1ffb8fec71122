// Arrays of nodes: replicas, and in-sync replicas. A null one stays null: its count is the cell of -1.
ghost use Rattle.std.specs.Prelude.{◌≡◌, false, ◌≤◌};
ghost use Rattle.layout.specs.Reading.{loop};
ghost use Rattle.body_reading.specs.Store.{limit};
ghost use Rattle.body_reading.specs.Walk.{Runs, beside, in_place, walk};
ghost use Rattle.metadata_response.specs.Numbers.{steps};
ghost use Rattle.metadata_response.specs.TopicShapes.{node_shape, nodes_shape};
ghost use Rattle.body_reading.specs.Walked.{beside_is, filled_is};

use crate::numbers::{count_at, int32_there};
use body_reading::tables::{LIMIT, less};
use body_reading::walks::{Counted, Filled};
use primitives::{BYTES_END, MINUS_ONE, Refusal, at};

// The cell of a null array.
const NULL: u64 = MINUS_ONE;

// The mark after n cells, room or not.
#[tactic(auto, using(crate::proofs::NodeRows::steps_near, crate::proofs::NodeRows::steps_over, crate::proofs::NodeRows::steps_stop))]
fn passed(mark: usize, n: usize) -> usize
    requires { n ≤ limit }
    ensures { result ≡ steps n mark }
{
    if mark < LIMIT - n {
        return mark + n;
    }
    if mark < LIMIT {
        return LIMIT;
    }
    mark
}

// `count` nodes from place p on, of four bytes each, which are asked for at once. Where some are missing no node need be stored: the tables of a refusal are not told.
// Nodes without room are not looked at.
fn nodes_in(
    s: &[u8],
    p: usize,
    count: u64,
    table: &mut [u64],
    mark: usize,
) -> Result<Filled, Refusal>
    ensures { Runs (λ e. loop count (walk false node_shape e.o)) s.now p (in_place table.old mark) (filled_is table.new result) }
{
    let there = less(s.len(), p) / 4;
    if (there as u64) < count {
        return Err(at(BYTES_END, p + 4 * there));
    }
    let n = count as usize;
    let after = passed(mark, n);
    let end = after.min(table.len());
    // `place` beside `row`: an iterator over parts of both is no plainer, since the mark may lie after the table's end.
    let mut place = p;
    for row in mark..end {
        table[row] = int32_there(&s[place..]);
        place += 4;
    }
    Ok(Filled {
        next: p + 4 * n,
        mark: after,
    })
}

// An array of nodes at place p.
pub(crate) fn nodes_at(
    s: &[u8],
    p: usize,
    table: &mut [u64],
    mark: usize,
) -> Result<Counted, Refusal>
    ensures { Runs (λ e. walk false (nodes_shape e.0.t) e.0.o) s.now p (beside table.old mark) (beside_is table.new result) }
{
    let number = count_at(s, p)?;
    match number.value {
        Some(count) => {
            let nodes = nodes_in(s, number.next, count, table, mark)?;
            Ok(Counted {
                count,
                next: nodes.next,
                mark: nodes.mark,
            })
        }
        None => Ok(Counted {
            count: NULL,
            next: number.next,
            mark,
        }),
    }
}
