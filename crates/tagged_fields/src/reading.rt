// Tagged fields, read: a number of tags, each with its data after the data's length. Their rows (tag, start, length) go to a lent table.
ghost use Rattle.std.specs.Prelude.{◌≡◌, false, true, [], ◌∷◌, pos};
ghost use Rattle.layout.specs.Reading.{loop};
ghost use Rattle.layout.specs.Read.{by_place, read};
ghost use Rattle.layout.specs.Answers.{prefix_read, tags_alone};
ghost use Rattle.body_reading.specs.Tagged.{tag_shape, tags_if, tags_shape};
ghost use Rattle.body_reading.specs.Walk.{Runs, on, walk};
ghost use Rattle.tagged_fields.specs.Read.{in_table, in_table_is, in_tables, in_tables_is, of_tag, of_tagged};

use body_reading::places::{data_at, varint_at};
use body_reading::tables::store_row;
use body_reading::walks::{Counted, Filled};
use primitives::{MINUS_ONE, MOST, Read, Refusal, Span, TOO_LONG, Taken, at, no_room};

// A tag, and where its data stand.
#[derive(Clone, Copy)]
pub struct Tag {
    pub tag: u64,
    pub data: Span,
}

pub(crate) fn tag_at(s: &[u8], p: usize) -> Read<Tag>
    ensures { of_tag result ≡ on (read (by_place false) tag_shape) s.now p }
{
    let tag = varint_at(s, p)?;
    let data = data_at(s, tag.next)?;
    Ok(Taken {
        value: Tag {
            tag: tag.value,
            data: data.value,
        },
        next: data.next,
    })
}

// One tag into the table, where there is room.
fn tag_in(s: &[u8], p: usize, table: &mut [u64], mark: usize) -> Result<Filled, Refusal>
    ensures { Runs (λ e. walk e.0 tag_shape e.1.o) s.now p (in_table table.old mark) (in_table_is table.new result) }
{
    let Taken { value, next } = tag_at(s, p)?;
    let row = [value.tag, value.data.start as u64, value.data.len as u64];
    Ok(Filled {
        next,
        mark: store_row(table, mark, row),
    })
}

// `count` tags from place p on. The bytes end long before a count that they cannot hold.
pub(crate) fn tags_at(
    s: &[u8],
    p: usize,
    count: u64,
    table: &mut [u64],
    mark: usize,
) -> Result<Filled, Refusal>
    ensures { Runs (λ e. loop count (walk e.0 tag_shape e.1.o)) s.now p (in_table table.old mark) (in_table_is table.new result) }
{
    let mut filled = Filled { next: p, mark };
    for _done in 0..count {
        filled = tag_in(s, filled.next, table, filled.mark)?;
    }
    Ok(filled)
}

// The number of tags and the tags, at the end of a row.
pub fn tag_buffer_at(s: &[u8], p: usize, table: &mut [u64], mark: usize) -> Result<Counted, Refusal>
    ensures { Runs (λ e. walk e.0 (tags_shape true e.1.t) e.1.o) s.now p (in_tables table.old mark) (in_tables_is table.new result) }
{
    let count = varint_at(s, p)?;
    let tags = tags_at(s, count.next, count.value, table, mark)?;
    Ok(Counted {
        count: count.value,
        next: tags.next,
        mark: tags.mark,
    })
}

// Tagged fields at the end of a row, where the version has them.
pub fn tags_if(
    s: &[u8],
    p: usize,
    flexible: bool,
    table: &mut [u64],
    mark: usize,
) -> Result<Counted, Refusal>
    ensures { Runs (λ e. walk e.0 (tags_if flexible e.1.t) e.1.o) s.now p (in_tables table.old mark) (in_tables_is table.new result) }
{
    if flexible {
        return tag_buffer_at(s, p, table, mark);
    }
    Ok(Counted {
        count: MINUS_ONE,
        next: p,
        mark,
    })
}

// Tagged fields at the front of a message: how many there are. The rows go to the table from its start on, three cells each; after a refusal the table is as it was.
pub fn tagged_fields(msg: &[u8], table: &mut [u64]) -> Read<u64>
    ensures { (of_tagged result, table.new ∷ []) ≡ prefix_read tags_alone (pos 0) (table.old ∷ []) msg.now }
{
    if MOST < msg.len() {
        return Err(at(TOO_LONG, 0));
    }
    // Over no room the walk measures.
    let measured = tag_buffer_at(msg, 0, &mut table[..0], 0)?;
    if table.len() / 3 < measured.mark / 3 {
        return Err(no_room(measured.mark / 3));
    }
    // What fits the table is read again as it was.
    let _ = tag_buffer_at(msg, 0, table, 0);
    Ok(Taken {
        value: measured.count,
        next: measured.next,
    })
}
