// What every writer asks of the tables and bytes that it is lent: ranges inside the bytes, counts that add up, and the parts that rows mean.
// One loop serves rows of every width.
ghost use Rattle.std.specs.Prelude.{false, true, ◌≡◌, length, ◌+◌, ◌<◌};
ghost use Rattle.layout.specs.Tables.{count, good_count, inside, rows_of, slice};
ghost use Rattle.layout.specs.Write.{unless};
ghost use Rattle.primitives_put.specs.Answers.{within};
ghost use Rattle.body_writing.specs.Asked.{all_ranged, start_of, string_fault, tells, width_of};

use primitives::{MINUS_ONE, NOT_TEXT, TOO_WIDE};
use primitives_put::replies::fits;

// Rows that have a range: (start, length), (start, length, count), (tag, start, length).
// An enum and no const parameters: `all_ranged` may ask nothing of its callers, and `ranged` rests on a place inside the row.
#[derive(Clone, Copy)]
pub enum Row {
    Name,
    Topic,
    Tag,
}

// ---- ranges

// Are n bytes from `start` on inside so many? A sum could wrap.
#[tactic(auto, using(crate::proofs::Inside::outside, crate::proofs::Inside::started))]
pub fn is_inside(size: usize, start: u64, n: u64) -> bool
    ensures { result ≡ inside size start n }
{
    match (size as u64).checked_sub(start) {
        Some(left) => n <= left,
        None => false,
    }
}

// Are the ranges of all rows inside? A row has its start at `at`, and its length behind it.
fn ranged(size: usize, table: &[u64], width: usize, at: usize) -> bool
    requires { at + 1 < width }
    ensures { result ≡ all_ranged width at size table.now }
{
    for row in table.chunks_exact(width) {
        if !is_inside(size, row[at], row[at + 1]) {
            return false;
        }
    }
    true
}

pub fn all_ranged(size: usize, table: &[u64], row: Row) -> bool
    ensures { result ≡ all_ranged (width_of row) (start_of row) size table.now }
{
    match row {
        Row::Name => ranged(size, table, 2, 0),
        Row::Topic => ranged(size, table, 3, 0),
        Row::Tag => ranged(size, table, 3, 1),
    }
}

// n bytes of the lent ones from `start` on; those past the end are not there.
#[tactic(auto, using(crate::proofs::Inside::part_is))]
pub fn part(lent: &[u8], start: u64, n: u64) -> &[u8]
    ensures { result.now ≡ slice lent.now (start, n) }
{
    let from = start.min(lent.len() as u64);
    let left = &lent[from as usize..];
    let len = n.min(left.len() as u64);
    &left[..len as usize]
}

// ---- counts

// The rows that a count tells: the cell of -1, for null or unset, tells none.
#[tactic(auto, using(crate::proofs::Counts::told_none, crate::proofs::Counts::told_some))]
pub fn rows_told(c: u64) -> u64
    ensures { result ≡ count c }
{
    if c == MINUS_ONE { 0 } else { c }
}

// Is the cell a count? One of -1 is where `null` says so.
#[tactic(auto, using(crate::proofs::Counts::count_null, crate::proofs::Counts::count_some))]
fn is_count(c: u64, null: bool) -> bool
    ensures { result ≡ good_count null c }
{
    if c == MINUS_ONE {
        null
    } else {
        c < 9223372036854775808
    }
}

// Do the counts of all rows, which stand at `at`, tell n in all?
fn do_tell(table: &[u64], n: u64, width: usize, at: usize, null: bool) -> bool
    requires { at < width }
    ensures { result ≡ tells null at n (rows_of width table.now) }
{
    let mut left = n;
    for row in table.chunks_exact(width) {
        let c = row[at];
        if !is_count(c, null) {
            return false;
        }
        let k = rows_told(c);
        if left < k {
            return false;
        }
        left -= k;
    }
    left == 0
}

// Do the items of an ApiVersions response, whose tags may be unset, tell n tags?
pub fn do_items_tell(items: &[u64], n: u64) -> bool
    ensures { result ≡ tells true 3 n (rows_of 4 items.now) }
{
    do_tell(items, n, 4, 3, true)
}

// Do topics tell n partitions? There is no null here.
pub fn do_topics_tell(topics: &[u64], n: u64) -> bool
    ensures { result ≡ tells false 2 n (rows_of 3 topics.now) }
{
    do_tell(topics, n, 3, 2, false)
}

// ---- faults

// What is wrong with a number of a width that holds those from -half to half - 1: 11, or 0 for nothing.
// Its promise and that of `string_fault` say a number, and 0 for no fault.
#[tactic(auto, unfolding(layout::specs::Write::unless))]
pub fn number_fault(c: u64, half: u64) -> u8
    ensures { result ≡ unless (within half c) 11 }
{
    if fits(c, half) { 0 } else { TOO_WIDE }
}

// What is wrong with the content of a STRING: 11 before 7, or 0 for neither.
#[tactic(auto, using(crate::proofs::Inside::text_bad, crate::proofs::Inside::text_good, crate::proofs::Inside::text_wide))]
pub fn string_fault(text: &[u8]) -> u8
    ensures { result ≡ string_fault text.now }
{
    if 32768 <= text.len() {
        return TOO_WIDE;
    }
    if !utf8::is_text(text) {
        return NOT_TEXT;
    }
    0
}
