// Aborted transactions: a row of producer and first offset each, in a table of their own.
ghost use Rattle.std.specs.Prelude.{false, true};
ghost use Rattle.layout.specs.Reading.{loop};
ghost use Rattle.body_reading.specs.Walk.{Runs, beside, in_place, walk};
ghost use Rattle.fetch_response.specs.TopicShapes.{aborted_array, aborted_shape};
ghost use Rattle.body_reading.specs.Walked.{beside_is, filled_is};

use body_reading::places::{int64_at, items_at};
use body_reading::tables::store_row;
use body_reading::walks::{Counted, Filled};
use primitives::Refusal;

// One of them into the table, where there is room.
fn pair_at(s: &[u8], p: usize, table: &mut [u64], mark: usize) -> Result<Filled, Refusal>
    ensures { Runs (λ e. walk false (aborted_shape true) e.o) s.now p (in_place table.old mark) (filled_is table.new result) }
{
    let producer = int64_at(s, p)?;
    let offset = int64_at(s, producer.next)?;
    Ok(Filled {
        next: offset.next,
        mark: store_row(table, mark, [producer.value, offset.value]),
    })
}

// `count` of them from place p on.
fn pairs_in(
    s: &[u8],
    p: usize,
    count: u64,
    table: &mut [u64],
    mark: usize,
) -> Result<Filled, Refusal>
    ensures { Runs (λ e. loop count (walk false (aborted_shape true) e.o)) s.now p (in_place table.old mark) (filled_is table.new result) }
{
    let mut filled = Filled { next: p, mark };
    for _ in 0..count {
        filled = pair_at(s, filled.next, table, filled.mark)?;
    }
    Ok(filled)
}

// The array at place p; `stable`: the version has it. Where it has not, there is no byte of it.
pub(crate) fn aborted_at(
    s: &[u8],
    p: usize,
    stable: bool,
    table: &mut [u64],
    mark: usize,
) -> Result<Counted, Refusal>
    ensures { Runs (λ e. walk false (aborted_array stable e.0.t) e.0.o) s.now p (beside table.old mark) (beside_is table.new result) }
{
    if !stable {
        return Ok(Counted {
            count: 0,
            next: p,
            mark,
        });
    }
    let items = items_at(s, p, false, false)?;
    let filled = pairs_in(s, items.next, items.value, table, mark)?;
    Ok(Counted {
        count: items.value,
        next: filled.next,
        mark: filled.mark,
    })
}
