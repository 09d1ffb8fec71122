// The body of a Fetch request, versions 0 to 4. Topics are rows of name (start, length) and number of partitions; partitions rows of index, offset and max bytes.
// Max bytes stand from version 3 on, an isolation level in version 4.
// The two tables stay slices of their own in every call, as the C interface lends them.
ghost use Rattle.std.specs.Prelude.{cond, false, is_some, unwrap_or, ◌≡◌, [], ◌++◌, ◌∷◌, get_or, length, ◌*◌, ◌+◌, ◌/◌, ◌<◌, ◌≤◌};
ghost use Rattle.layout.specs.Answers.{write_alone, write_answer};
ghost use Rattle.layout.specs.Messages.Fetch as Fetch;
ghost use Rattle.layout.specs.Primitives.{bytes, empty, fixed, w32};
ghost use Rattle.layout.specs.Rows.{end};
ghost use Rattle.layout.specs.Tables.{rows_of, sum};
ghost use Rattle.primitives_put.specs.Step.{Capped, cap};
ghost use Rattle.body_writing.specs.Writes.{bytes_at, counted_bytes, items_bytes, refusal_of, row_bytes, rows_bytes, takes};
ghost use Rattle.primitives_put.specs.Answers.{replied};
ghost use Rattle.fetch_request.specs.Answers.{of_request};
ghost use Rattle.fetch_request.specs.Shapes.{lead_shape, limits_shape, own_row, partition_shape, request_shape, topic_shape, topics_shape};

use crate::judge::{cells, refusal};
use crate::{Own, RequestBody};
use body_writing::ranges::part;
use primitives::{MOST, NO_VERSION, TOO_LONG, at, no_room, version_of};
use primitives_put::{Form, Written};

// ---- the walk

// The lowest n bytes of a, and behind them m of b.
fn two(out: &mut [u8], a: u64, n: usize, b: u64, m: usize) -> usize
    ensures { Capped (bytes n a ++ bytes m b) out.old result out.new }
{
    let x = primitives_put::lowest(out, a, n);
    let p = primitives_put::behind(x, out.len());
    let y = primitives_put::lowest(&mut out[p..], b, m);
    primitives_put::add(x, y)
}

// A row's sixteen bytes.
fn partition(out: &mut [u8], table: &[u64], i: usize) -> usize
    requires { i < length table.now / 3 }
    ensures { Capped (row_bytes [] partition_shape (get_or (rows_of 3 table.now) i [])) out.old result out.new }
{
    if 16 <= out.len() {
        primitives_put::lowest(out, table[i * 3], 4);
        primitives_put::lowest(&mut out[4..], table[i * 3 + 1], 8);
        primitives_put::lowest(&mut out[12..], table[i * 3 + 2], 4);
    }
    16
}

// Partition behind partition, in an output of just their size: the loop's own test tells the room of each. Two a turn, so that there are half as many tests.
// A `while`, since it counts room and not rows: after a count, as a `for` has it, the room of each row would be tested again.
fn rows(out: &mut [u8], table: &[u64]) -> usize
    requires { length out.old ≡ length table.now / 3 * 16 }
    ensures { Capped (rows_bytes [] partition_shape 3 table.now) out.old result out.new }
{
    let mut p: usize = 0;
    let mut i: usize = 0;
    while 32 <= out.len() - p {
        partition(&mut out[p..], table, i);
        p = p + 16;
        i = i + 1;
        partition(&mut out[p..], table, i);
        p = p + 16;
        i = i + 1;
    }
    if 16 <= out.len() - p {
        partition(&mut out[p..], table, i);
        return p + 16;
    }
    p
}

// Rows of one width are measured by their number.
fn partitions(out: &mut [u8], table: &[u64]) -> usize
    ensures { Capped (rows_bytes [] partition_shape 3 table.now) out.old result out.new }
{
    let all = table.len() / 3 * 16;
    if all <= out.len() {
        rows(&mut out[..all], table);
    }
    all
}

// The partitions behind their number.
fn counted(out: &mut [u8], table: &[u64]) -> usize
    ensures { Capped (counted_bytes [] partition_shape (fixed w32 empty) 3 table.now) out.old result out.new }
{
    let a = primitives_put::length(out, Form::Int32, (table.len() / 3) as u64);
    let p = primitives_put::behind(a, out.len());
    let b = partitions(&mut out[p..], table);
    primitives_put::add(a, b)
}

// The first row of `topics`, with the first rows of `partitions`: measured first, and stored where there is room for all of it.
fn topic(out: &mut [u8], lent: &[u8], topics: &[u64], partitions: &[u64]) -> usize
    requires { (3 ≤ length topics.now) × (takes 3 2 topics.now ≤ length partitions.now) }
    ensures { Capped (bytes_at lent.now topic_shape 1 ([] ∷ topics.now ∷ partitions.now ∷ [])) out.old result out.new }
{
    let k = cells(topics);
    let name = part(lent, topics[0], topics[1]);
    let head = name.len() + 2;
    let all = head + 4 + k / 3 * 16;
    if all <= out.len() {
        primitives_put::sized(out, Form::Int16, name);
        counted(&mut out[head..], &partitions[..k]);
    }
    all
}

// Topic behind topic. The cells are told before the topic is stored, so that its count is loaded once.
fn all_topics(out: &mut [u8], lent: &[u8], topics: &[u64], partitions: &[u64]) -> usize
    requires { sum (takes 3 2) (rows_of 3 topics.now) ≤ length partitions.now }
    ensures { Capped (items_bytes lent.now topic_shape (length topics.now / 3) 1 ([] ∷ topics.now ∷ partitions.now ∷ [])) out.old result out.new }
{
    let mut done: usize = 0;
    let mut free = partitions;
    for row in topics.chunks_exact(3) {
        let k = cells(row);
        let p = primitives_put::behind(done, out.len());
        let more = topic(&mut out[p..], lent, row, free);
        done = primitives_put::add(done, more);
        free = &free[k..];
    }
    done
}

// The topics behind their number.
fn array(out: &mut [u8], lent: &[u8], topics: &[u64], partitions: &[u64]) -> usize
    requires { sum (takes 3 2) (rows_of 3 topics.now) ≤ length partitions.now }
    ensures { Capped (bytes_at lent.now topics_shape 0 ((length topics.now / 3 ∷ []) ∷ topics.now ∷ partitions.now ∷ [])) out.old result out.new }
{
    let a = primitives_put::length(out, Form::Int32, (topics.len() / 3) as u64);
    let p = primitives_put::behind(a, out.len());
    let b = all_topics(&mut out[p..], lent, topics, partitions);
    primitives_put::add(a, b)
}

// The lowest k bytes of n, where the version has the field.
fn number_if(out: &mut [u8], n: Option<u64>, k: usize) -> usize
    ensures { Capped (cond (is_some n) (bytes k (unwrap_or n 0)) []) out.old result out.new }
{
    match n {
        Some(n) => primitives_put::lowest(out, n, k),
        None => 0,
    }
}

// Max bytes and isolation level.
fn limits(out: &mut [u8], largest: Option<u64>, level: Option<u64>) -> usize
    ensures { Capped (row_bytes [] (limits_shape (is_some largest) (is_some level) end) (2 ∷ unwrap_or largest 0 ∷ 2 ∷ unwrap_or level 0 ∷ [])) out.old result out.new }
{
    let x = number_if(out, largest, 4);
    let p = primitives_put::behind(x, out.len());
    let y = number_if(&mut out[p..], level, 1);
    primitives_put::add(x, y)
}

fn lead(out: &mut [u8], replica: u64, wait: u64, least: u64) -> usize
    ensures { Capped (row_bytes [] (lead_shape end) (replica ∷ wait ∷ least ∷ [])) out.old result out.new }
{
    let a = primitives_put::lowest(out, replica, 4);
    let p = primitives_put::behind(a, out.len());
    let b = two(&mut out[p..], wait, 4, least, 4);
    primitives_put::add(a, b)
}

// What stands behind min bytes.
fn rest(out: &mut [u8], own: Own, lent: &[u8], topics: &[u64], partitions: &[u64]) -> usize
    requires { sum (takes 3 2) (rows_of 3 topics.now) ≤ length partitions.now }
    ensures { Capped (bytes_at lent.now (limits_shape (is_some own.largest) (is_some own.level) topics_shape) 0 ((2 ∷ unwrap_or own.largest 0 ∷ 2 ∷ unwrap_or own.level 0 ∷ length topics.now / 3 ∷ []) ∷ topics.now ∷ partitions.now ∷ [])) out.old result out.new }
{
    let x = limits(out, own.largest, own.level);
    let p = primitives_put::behind(x, out.len());
    let y = array(&mut out[p..], lent, topics, partitions);
    primitives_put::add(x, y)
}

fn body(out: &mut [u8], own: Own, lent: &[u8], topics: &[u64], partitions: &[u64]) -> usize
    requires { sum (takes 3 2) (rows_of 3 topics.now) ≤ length partitions.now }
    ensures { Capped (bytes_at lent.now (request_shape (is_some own.largest) (is_some own.level)) 0 (own_row own (length topics.now / 3) ∷ topics.now ∷ partitions.now ∷ [])) out.old result out.new }
{
    let x = lead(out, own.replica, own.wait, own.least);
    let p = primitives_put::behind(x, out.len());
    let y = rest(&mut out[p..], own, lent, topics, partitions);
    primitives_put::add(x, y)
}

// ---- the call

// Measured, and written where there is room.
fn measured(out: &mut [u8], own: Own, lent: &[u8], topics: &[u64], partitions: &[u64]) -> Written
    requires { sum (takes 3 2) (rows_of 3 topics.now) ≤ length partitions.now }
    ensures { replied result out.new ≡ write_alone 0 (bytes_at lent.now (request_shape (is_some own.largest) (is_some own.level)) 0 (own_row own (length topics.now / 3) ∷ topics.now ∷ partitions.now ∷ [])) out.old }
{
    let all = body(&mut out[..0], own, lent, topics, partitions);
    if MOST < all {
        return Err(at(TOO_LONG, 0));
    }
    if out.len() < all {
        return Err(no_room(all));
    }
    body(out, own, lent, topics, partitions);
    Ok(all)
}

// No request has more bytes, of so many lent bytes and so many cells of topics and of partitions. Counts over the limit are not told apart.
fn most_bytes(lent: usize, topics: usize, partitions: usize) -> usize
    ensures { cap (topics * (lent + 6) + partitions * 16 + 21) ≤ result }
{
    if MOST < lent || MOST < topics || MOST < partitions {
        return MOST + 1;
    }
    topics * (lent + 6) + partitions * 16 + 21
}

// Where the room is plainly enough nothing is measured.
fn stored(out: &mut [u8], own: Own, lent: &[u8], topics: &[u64], partitions: &[u64]) -> Written
    requires { sum (takes 3 2) (rows_of 3 topics.now) ≤ length partitions.now }
    ensures { replied result out.new ≡ write_alone 0 (bytes_at lent.now (request_shape (is_some own.largest) (is_some own.level)) 0 (own_row own (length topics.now / 3) ∷ topics.now ∷ partitions.now ∷ [])) out.old }
{
    let enough = most_bytes(lent.len(), topics.len(), partitions.len());
    if enough <= MOST && enough <= out.len() {
        return Ok(body(out, own, lent, topics, partitions));
    }
    measured(out, own, lent, topics, partitions)
}

// At a version that is known: judged and written.
fn written(
    out: &mut [u8],
    own: Own,
    count: u64,
    lent: &[u8],
    topics: &[u64],
    partitions: &[u64],
) -> Written
    ensures { replied result out.new ≡ write_alone (refusal_of lent.now 2 (request_shape false false) (request_shape (is_some own.largest) (is_some own.level)) (own_row own count ∷ topics.now ∷ partitions.now ∷ [])) (bytes_at lent.now (request_shape (is_some own.largest) (is_some own.level)) 0 (own_row own (length topics.now / 3) ∷ topics.now ∷ partitions.now ∷ [])) out.old }
{
    let e = refusal(own, count, lent, topics, partitions);
    if e != 0 {
        return Err(at(e, 0));
    }
    stored(out, own, lent, topics, partitions)
}

// `topics` are rows of start and length of a name in `lent` and number of partitions; `partitions` rows of index, offset and max bytes.
// Unset, max bytes are the most that an Int32 holds, and the isolation level is 0.
pub fn write(
    out: &mut [u8],
    version: i64,
    lent: &[u8],
    body: RequestBody,
    topics: &[u64],
    partitions: &[u64],
) -> Written
    ensures { replied result out.new ≡ write_answer Fetch.request version lent.now (of_request body ∷ topics.now ∷ partitions.now ∷ []) out.old }
{
    let v = version_of(version);
    if 4 < v {
        return Err(at(NO_VERSION, 0));
    }
    let largest = body.max_bytes.unwrap_or(2147483647);
    let level = body.isolation.unwrap_or(0);
    let own = Own {
        replica: body.replica,
        wait: body.max_wait,
        least: body.min_bytes,
        largest: (3 <= v).then_some(largest),
        level: (4 <= v).then_some(level),
    };
    written(out, own, body.topics, lent, topics, partitions)
}
