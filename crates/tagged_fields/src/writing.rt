// Tagged fields, written: the rows of a table, each a tag with a part of the lent bytes. By a call of their own, or in a body.
// One walk, run twice: over no room it only counts the bytes.
ghost use Rattle.std.specs.Prelude.{true, ◌≡◌, [], ◌∷◌, pos, get_or, length, ◌/◌, ◌<◌};
ghost use Rattle.layout.specs.Answers.{tags_alone, write_answer};
ghost use Rattle.layout.specs.Primitives.{plain};
ghost use Rattle.layout.specs.Tables.{good, rows_of};
ghost use Rattle.primitives_put.specs.Step.{Capped, Step};
ghost use Rattle.body_reading.specs.Tagged.{tag_shape, tags_shape};
ghost use Rattle.body_writing.specs.Writes.{counted_bytes, row_bytes, rows_bytes};
ghost use Rattle.primitives_put.specs.Put.{behind_length};
ghost use Rattle.primitives_put.specs.Answers.{replied};

use body_writing::ranges::{Row, all_ranged, part, rows_told};
use primitives::{BAD_TABLES, MOST, TOO_LONG, at, no_room};
use primitives_put::Written;

// ---- 13

// The table has the rows that the count tells, and all data are inside.
pub fn is_good(size: usize, count: u64, table: &[u64]) -> bool
    ensures { result ≡ good size 1 (tags_shape true 1) ((count ∷ []) ∷ table.now ∷ []) }
{
    rows_told(count) == (table.len() / 3) as u64 && all_ranged(size, table, Row::Tag)
}

// ---- the walk

// Data behind their length.
fn put_data(out: &mut [u8], content: &[u8]) -> usize
    ensures { Step (behind_length plain content.now) out.old result out.new }
{
    let a = primitives_put::unsigned_varint(out, content.len() as u64);
    let p = primitives_put::behind(a, out.len());
    let b = primitives_put::raw(&mut out[p..], content);
    a + b
}

// A tag, and n bytes of the lent ones from `start` on as its data.
fn put_tag(out: &mut [u8], lent: &[u8], tag: u64, start: u64, n: u64) -> usize
    ensures { Capped (row_bytes lent.now tag_shape (tag ∷ start ∷ n ∷ [])) out.old result out.new }
{
    let a = primitives_put::unsigned_varint(out, tag);
    let p = primitives_put::behind(a, out.len());
    let b = put_data(&mut out[p..], part(lent, start, n));
    primitives_put::add(a, b)
}

fn put_row(out: &mut [u8], lent: &[u8], table: &[u64], i: usize) -> usize
    requires { i < length table.now / 3 }
    ensures { Capped (row_bytes lent.now tag_shape (get_or (rows_of 3 table.now) i [])) out.old result out.new }
{
    put_tag(out, lent, table[i * 3], table[i * 3 + 1], table[i * 3 + 2])
}

// Row after row.
fn put_tags(out: &mut [u8], lent: &[u8], table: &[u64]) -> usize
    ensures { Capped (rows_bytes lent.now tag_shape 3 table.now) out.old result out.new }
{
    let mut done = 0;
    for i in 0..table.len() / 3 {
        let p = primitives_put::behind(done, out.len());
        let more = put_row(&mut out[p..], lent, table, i);
        done = primitives_put::add(done, more);
    }
    done
}

// The number of the table's rows, and all of them behind it.
pub fn tag_buffer(out: &mut [u8], lent: &[u8], table: &[u64]) -> usize
    ensures { Capped (counted_bytes lent.now tag_shape plain 3 table.now) out.old result out.new }
{
    let a = primitives_put::unsigned_varint(out, (table.len() / 3) as u64);
    let p = primitives_put::behind(a, out.len());
    let b = put_tags(&mut out[p..], lent, table);
    primitives_put::add(a, b)
}

// ---- the call

// `count` is that of the rows, or the cell of -1 for tags that are unset; a row is a tag, and the start and length of its data in `lent`.
pub fn tagged_fields(out: &mut [u8], lent: &[u8], count: u64, table: &[u64]) -> Written
    ensures { replied result out.new ≡ write_answer tags_alone (pos 0) lent.now ((count ∷ []) ∷ table.now ∷ []) out.old }
{
    if !is_good(lent.len(), count, table) {
        return Err(at(BAD_TABLES, 0));
    }
    let all = tag_buffer(&mut out[..0], lent, table);
    if MOST < all {
        return Err(at(TOO_LONG, 0));
    }
    if out.len() < all {
        return Err(no_room(all));
    }
    tag_buffer(out, lent, table);
    Ok(all)
}
