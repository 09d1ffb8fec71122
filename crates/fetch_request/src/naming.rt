// The field of a Fetch request that a refusal names: of its body row, of a topic, or of a topic's partition. Rows are counted over their whole table.
ghost use Rattle.std.specs.Prelude.{is_some, unwrap_or, [], ◌∷◌, ◌≢◌, ◌≡◌, ◌/◌, ◌<◌, ◌≤◌, get_or, length};
ghost use Rattle.layout.specs.Answers.{meant, none_yet};
ghost use Rattle.layout.specs.Names.{name_fault};
ghost use Rattle.layout.specs.Reading.{nowhere};
ghost use Rattle.layout.specs.Rows.{end};
ghost use Rattle.layout.specs.Rows as Rows;
ghost use Rattle.layout.specs.Tables.{rows_of, sum};
ghost use Rattle.layout.specs.Write.{basic_fault};
ghost use Rattle.primitives.specs.Answers.{of_refusal};
ghost use Rattle.names.specs.Walks.{of_named};
ghost use Rattle.body_writing.specs.Blames.{Walkable, blame_at, items_blame, of_blamed, row_blame, rows_blame};
ghost use Rattle.body_writing.specs.Writes.{takes};
ghost use Rattle.fetch_request.specs.Shapes.{lead_shape, level_shape, limits_shape, own_row, partition_shape, request_shape, topic_shape};

use crate::Own;
use crate::judge::cells;
use body_writing::blames::{Blamed, blamed_by};
use body_writing::ranges::{number_fault, part, string_fault};
use names::{FETCH_REQUEST, Found, Named, begin, is_fieldless, without_field};
use primitives::{MINUS_ONE, Refusal, TOO_WIDE};

const TOPICS: usize = 1;

const PARTITIONS: usize = 2;

// Numbers of 32 bits are those from -HALF to HALF - 1.
const HALF: u64 = 2147483648;

// ---- partitions

// Row i of `table`, which is row `row` of all partitions. An offset has no fault: every cell holds a number of 64 bits.
fn partition(e: u8, table: &[u64], i: usize, row: u64) -> Blamed
    requires { (e ≢ 0) × (i < length table.now / 3) }
    ensures { of_blamed [] result ≡ row_blame [] e partition_shape row 0 [] (get_or (rows_of 3 table.now) i []) }
{
    if number_fault(table[i * 3], HALF) == e {
        return Err(Found { row, field: 0 });
    }
    if number_fault(table[i * 3 + 2], HALF) == e {
        return Err(Found { row, field: 2 });
    }
    Ok(())
}

fn all_partitions(e: u8, table: &[u64], begun: &mut [u64]) -> Blamed
    requires { e ≢ 0 }
    ensures { of_blamed begun.new result ≡ rows_blame [] e partition_shape 3 2 table.now begun.old }
{
    for i in 0..table.len() / 3 {
        let row = begin(begun, PARTITIONS);
        partition(e, table, i, row)?;
    }
    Ok(())
}

// ---- topics

// The first row of `topics`, which is row `row` of all of them, with the first rows of `partitions`.
fn topic(
    e: u8,
    lent: &[u8],
    topics: &[u64],
    partitions: &[u64],
    row: u64,
    begun: &mut [u64],
) -> Blamed
    requires { (e ≢ 0) × (3 ≤ length topics.now) × (takes 3 2 topics.now ≤ length partitions.now) }
    ensures { of_blamed begun.new result ≡ blame_at lent.now e topic_shape 1 ([] ∷ topics.now ∷ partitions.now ∷ []) row 0 begun.old }
{
    if string_fault(part(lent, topics[0], topics[1])) == e {
        return Err(Found { row, field: 0 });
    }
    let k = cells(topics);
    all_partitions(e, &partitions[..k], begun)
}

fn all_topics(e: u8, lent: &[u8], topics: &[u64], partitions: &[u64], begun: &mut [u64]) -> Blamed
    requires { (e ≢ 0) × (sum (takes 3 2) (rows_of 3 topics.now) ≤ length partitions.now) }
    ensures { of_blamed begun.new result ≡ items_blame lent.now e topic_shape (length topics.now / 3) 1 ([] ∷ topics.now ∷ partitions.now ∷ []) begun.old }
{
    let mut free = partitions;
    for asked in topics.chunks_exact(3) {
        let row = begin(begun, TOPICS);
        topic(e, lent, asked, free, row, begun)?;
        let k = cells(asked);
        free = &free[k..];
    }
    Ok(())
}

// ---- the body row

// An isolation level is 0 or 1.
fn level_fault(n: u64) -> u8
    ensures { result ≡ basic_fault Rows.level n }
{
    if n <= 1 {
        return 0;
    }
    TOO_WIDE
}

// The isolation level, field `field` where the version has one.
fn isolation(e: u8, level: Option<u64>, field: u64) -> Blamed
    ensures { of_blamed [] result ≡ row_blame [] e (level_shape (is_some level) end) nowhere field [] (2 ∷ unwrap_or level 0 ∷ []) }
{
    let Some(n) = level else {
        return Ok(());
    };
    if level_fault(n) == e {
        return Err(Found {
            row: MINUS_ONE,
            field,
        });
    }
    Ok(())
}

// Max bytes, where the version has them, and the isolation level.
fn limits(e: u8, own: Own) -> Blamed
    ensures { of_blamed [] result ≡ row_blame [] e (limits_shape (is_some own.largest) (is_some own.level) end) nowhere 3 [] (2 ∷ unwrap_or own.largest 0 ∷ 2 ∷ unwrap_or own.level 0 ∷ []) }
{
    let Some(largest) = own.largest else {
        return isolation(e, own.level, 3);
    };
    if number_fault(largest, HALF) == e {
        return Err(Found {
            row: MINUS_ONE,
            field: 3,
        });
    }
    isolation(e, own.level, 4)
}

// The numbers before the topics.
fn numbers(e: u8, own: Own) -> Blamed
    ensures { of_blamed [] result ≡ row_blame [] e (lead_shape (limits_shape (is_some own.largest) (is_some own.level) end)) nowhere 0 [] (own.replica ∷ own.wait ∷ own.least ∷ 2 ∷ unwrap_or own.largest 0 ∷ 2 ∷ unwrap_or own.level 0 ∷ []) }
{
    if number_fault(own.replica, HALF) == e {
        return Err(Found {
            row: MINUS_ONE,
            field: 0,
        });
    }
    if number_fault(own.wait, HALF) == e {
        return Err(Found {
            row: MINUS_ONE,
            field: 1,
        });
    }
    if number_fault(own.least, HALF) == e {
        return Err(Found {
            row: MINUS_ONE,
            field: 2,
        });
    }
    limits(e, own)
}

fn body(
    e: u8,
    own: Own,
    lent: &[u8],
    topics: &[u64],
    partitions: &[u64],
    begun: &mut [u64],
) -> Blamed
    requires { (e ≢ 0) × (sum (takes 3 2) (rows_of 3 topics.now) ≤ length partitions.now) }
    ensures { of_blamed begun.new result ≡ blame_at lent.now e (request_shape (is_some own.largest) (is_some own.level)) 0 (own_row own (length topics.now / 3) ∷ topics.now ∷ partitions.now ∷ []) nowhere 0 begun.old }
{
    numbers(e, own)?;
    all_topics(e, lent, topics, partitions, begun)
}

// The refusal e with its name.
pub(crate) fn with_name(
    e: Refusal,
    own: Own,
    lent: &[u8],
    topics: &[u64],
    partitions: &[u64],
) -> Named
    requires { Walkable e.number 3 (takes 3 2) topics.now partitions.now }
    ensures { of_named result ≡ name_fault 5 (request_shape (is_some own.largest) (is_some own.level)) none_yet (meant lent.now (own_row own (length topics.now / 3) ∷ topics.now ∷ partitions.now ∷ []) (request_shape (is_some own.largest) (is_some own.level))) (of_refusal e) }
{
    if is_fieldless(e.number) {
        return without_field(e, FETCH_REQUEST);
    }
    let mut begun = [0u64; 8];
    blamed_by(
        e,
        FETCH_REQUEST,
        body(e.number, own, lent, topics, partitions, &mut begun),
    )
}
