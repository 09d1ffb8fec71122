// Stores into the tables that a caller lends. A store has room or not, and the mark always moves on, so that the same walk measures and fills.
ghost use Rattle.std.specs.Prelude.{◌≡◌, [], ◌∷◌, ◌-◌, ◌+◌, ◌≤◌, length};
ghost use Rattle.body_reading.specs.Store.{step, store, tab};

// Far beyond every table: a mark stops here.
pub const LIMIT: usize = 4611686018427387904;

// a - b, and 0 where b is greater.
pub fn less(a: usize, b: usize) -> usize
    ensures { result ≡ a - b }
{
    a.saturating_sub(b)
}

fn stepped(mark: usize) -> usize
    ensures { result ≡ step mark }
{
    if mark < LIMIT { mark + 1 } else { mark }
}

// Stores the cell at the mark where there is room; the result is the next mark.
pub fn store(table: &mut [u64], mark: usize, cell: u64) -> usize
    ensures { tab table.new result ≡ store (tab table.old mark) (cell ∷ []) }
{
    let next = stepped(mark);
    if mark < table.len() {
        table[mark] = cell;
    }
    next
}

// The mark behind a row of four cells that has no room.
pub fn skip4(mark: usize) -> usize
    ensures { result ≡ step (step (step (step mark))) }
{
    if mark < LIMIT - 3 {
        return mark + 4;
    }
    stepped(stepped(stepped(stepped(mark))))
}

// A row of cells, all of which have room.
fn store_all<const N: usize>(table: &mut [u64], mark: usize, row: [u64; N]) -> usize
    requires { mark + N ≤ length table.old }
    ensures { tab table.new result ≡ store (tab table.old mark) row.entry }
{
    for i in 0..N {
        table[mark + i] = row[i];
    }
    mark + N
}

// A row of cells. Mostly all of them have room, or none has, as in a measure: each is asked for once.
pub fn store_row<const N: usize>(table: &mut [u64], mark: usize, row: [u64; N]) -> usize
    ensures { tab table.new result ≡ store (tab table.old mark) row.entry }
{
    if mark < table.len() {
        if N <= table.len() - mark {
            return store_all(table, mark, row);
        }
    } else if N <= LIMIT && mark <= LIMIT - N {
        return mark + N;
    }
    let mut next = mark;
    for i in 0..N {
        next = store(table, next, row[i]);
    }
    next
}
