// What is refused of a Fetch request before a byte is written: tables that do not add up, names outside the lent bytes,
// and then in field order numbers too wide, names too long and names that are not text.
ghost use Rattle.std.specs.Prelude.{◌&&◌, cond, false, true, ◌≡◌, [], ◌∷◌, get_or, length, ◌/◌, ◌<◌, ◌^◌, ◌≤◌, eqb, is_some, leb, ltb, unwrap_or};
ghost use Rattle.layout.specs.Primitives.{holds, w32};
ghost use Rattle.layout.specs.Tables.{good, rows_of, sum};
ghost use Rattle.body_writing.specs.Writes.{fault_at, items_fault, refusal_of, row_fault, rows_fault, takes};
ghost use Rattle.fetch_request.specs.Shapes.{own_row, partition_shape, request_shape, topic_shape};

use crate::Own;
use body_writing::ranges::{Row, all_ranged, do_topics_tell, part, rows_told, string_fault};
use primitives::{BAD_TABLES, TOO_WIDE};
use primitives_put::replies::fits;

// ---- 13

fn is_good(size: usize, count: u64, topics: &[u64], partitions: &[u64]) -> bool
    ensures { result ≡ good size 2 (request_shape false false) ((0 ∷ 0 ∷ 0 ∷ 0 ∷ 0 ∷ 0 ∷ 0 ∷ count ∷ []) ∷ topics.now ∷ partitions.now ∷ []) }
{
    if count != (topics.len() / 3) as u64 {
        return false;
    }
    if !do_topics_tell(topics, (partitions.len() / 3) as u64) {
        return false;
    }
    all_ranged(size, topics, Row::Topic)
}

// ---- 11: the own row's numbers

#[tactic(auto, unfolding(primitives_put::specs::Answers::within, layout::specs::Primitives::holds))]
fn both_fit(m: u64, n: u64) -> bool
    ensures { result ≡ (holds w32 m && holds w32 n) }
{
    fits(m, 2147483648) && fits(n, 2147483648)
}

#[tactic(auto, unfolding(primitives_put::specs::Answers::within, layout::specs::Primitives::holds))]
fn lead_fits(replica: u64, wait: u64, least: u64) -> bool
    ensures { result ≡ (holds w32 replica && (holds w32 wait && holds w32 least)) }
{
    fits(replica, 2147483648) && both_fit(wait, least)
}

// Max bytes, where the version has them.
#[tactic(auto, unfolding(primitives_put::specs::Answers::within, layout::specs::Primitives::holds))]
fn largest_fits(largest: Option<u64>) -> bool
    ensures { result ≡ cond (is_some largest) (holds w32 (unwrap_or largest 0)) true }
{
    match largest {
        Some(n) => fits(n, 2147483648),
        None => true,
    }
}

// An isolation level is 0 or 1.
fn level_fits(level: Option<u64>) -> bool
    ensures { result ≡ cond (is_some level) (leb (unwrap_or level 0) 1) true }
{
    match level {
        Some(n) => n <= 1,
        None => true,
    }
}

fn limits_fit(largest: Option<u64>, level: Option<u64>) -> bool
    ensures { result ≡ (cond (is_some largest) (holds w32 (unwrap_or largest 0)) true && cond (is_some level) (leb (unwrap_or level 0) 1) true) }
{
    largest_fits(largest) && level_fits(level)
}

// ---- 11 and 7: topic by topic

// No number below zero: the test that is shorter.
fn both_small(m: u64, n: u64) -> bool
    ensures { result ≡ (ltb m 2147483648 && ltb n 2147483648) }
{
    m < 2147483648 && n < 2147483648
}

// A row that it says to be small has no fault; of others it says nothing.
fn is_small(partitions: &[u64], i: usize) -> bool
    requires { i < length partitions.now / 3 }
    ensures { result ≡ (result && eqb (row_fault [] partition_shape (get_or (rows_of 3 partitions.now) i [])) 0) }
{
    both_small(partitions[i * 3], partitions[i * 3 + 2])
}

// Two rows a turn, the numbers of both loaded before one is judged, so that one test does for all four.
fn all_small(partitions: &[u64]) -> bool
    ensures { result ≡ (result && eqb (rows_fault [] partition_shape 3 partitions.now) 0) }
{
    let n = partitions.len() / 3;
    for turn in 0..n / 2 {
        let a = is_small(partitions, turn * 2);
        let b = is_small(partitions, turn * 2 + 1);
        if !a || !b {
            return false;
        }
    }
    let last = n / 2 * 2;
    if last < n {
        return is_small(partitions, last);
    }
    true
}

// Not one function with `all_small`, which is no plainer: it takes two rows a turn, and says nothing of a row that it does not find small.
fn all_fit(partitions: &[u64]) -> bool
    ensures { result ≡ eqb (rows_fault [] partition_shape 3 partitions.now) 0 }
{
    for row in partitions.chunks_exact(3) {
        if !both_fit(row[0], row[2]) {
            return false;
        }
    }
    true
}

// Mostly no number is below zero.
fn partitions_fit(partitions: &[u64]) -> bool
    ensures { result ≡ eqb (rows_fault [] partition_shape 3 partitions.now) 0 }
{
    if all_small(partitions) {
        return true;
    }
    all_fit(partitions)
}

// The cells of partitions that the first row of `topics` takes.
pub(crate) fn cells(topics: &[u64]) -> usize
    requires { (3 ≤ length topics.now) × (takes 3 2 topics.now < 2 ^ 62) }
    ensures { result ≡ takes 3 2 topics.now }
{
    rows_told(topics[2]) as usize * 3
}

// Of the first row of `topics`, with the first rows of `partitions`.
fn topic_fault(lent: &[u8], topics: &[u64], partitions: &[u64]) -> u8
    requires { (3 ≤ length topics.now) × (takes 3 2 topics.now ≤ length partitions.now) }
    ensures { result ≡ fault_at lent.now topic_shape 1 ([] ∷ topics.now ∷ partitions.now ∷ []) }
{
    let e = string_fault(part(lent, topics[0], topics[1]));
    if e != 0 {
        return e;
    }
    let k = cells(topics);
    if !partitions_fit(&partitions[..k]) {
        return TOO_WIDE;
    }
    0
}

// That of the first topic that has one.
fn topics_fault(lent: &[u8], topics: &[u64], partitions: &[u64]) -> u8
    requires { sum (takes 3 2) (rows_of 3 topics.now) ≤ length partitions.now }
    ensures { result ≡ items_fault lent.now topic_shape (length topics.now / 3) 1 ([] ∷ topics.now ∷ partitions.now ∷ []) }
{
    let mut free = partitions;
    for row in topics.chunks_exact(3) {
        let e = topic_fault(lent, row, free);
        if e != 0 {
            return e;
        }
        let k = cells(row);
        free = &free[k..];
    }
    0
}

// 13, 11, 7, or 0 for none of them.
pub(crate) fn refusal(own: Own, count: u64, lent: &[u8], topics: &[u64], partitions: &[u64]) -> u8
    ensures { result ≡ refusal_of lent.now 2 (request_shape false false) (request_shape (is_some own.largest) (is_some own.level)) (own_row own count ∷ topics.now ∷ partitions.now ∷ []) }
{
    if !is_good(lent.len(), count, topics, partitions) {
        return BAD_TABLES;
    }
    if !lead_fits(own.replica, own.wait, own.least) {
        return TOO_WIDE;
    }
    if !limits_fit(own.largest, own.level) {
        return TOO_WIDE;
    }
    topics_fault(lent, topics, partitions)
}
