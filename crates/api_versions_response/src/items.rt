// The items of an ApiVersions response: a row of key, minimum, maximum and number of tags each goes to one lent table, their tags to another.
ghost use Rattle.std.specs.Prelude.{◌≡◌, false, ◌+◌, ◌≤◌, length};
ghost use Rattle.layout.specs.Reading.{loop};
ghost use Rattle.layout.specs.Read.{by_place, read};
ghost use Rattle.body_reading.specs.Walk.{Runs, on, walk};
ghost use Rattle.tagged_fields.specs.Read as Tags;
ghost use Rattle.api_versions_response.specs.ItemShapes.{key_front, key_shape};
ghost use Rattle.api_versions_response.specs.ItemWalks.{Bare, IsBare, in_tables, of_key, rows_is};

use body_reading::places::int16_at;
use body_reading::tables::{less, skip4, store_row};
use primitives::{Read, Refusal, Taken};
use tagged_fields::reading::tags_if;

// The numbers of an item.
#[derive(Clone, Copy)]
pub struct Key {
    pub key: u64,
    pub min: u64,
    pub max: u64,
}

// The place after some items, and the marks of the tables.
#[derive(Clone, Copy)]
pub struct Rows {
    pub next: usize,
    pub items: usize,
    pub tags: usize,
}

fn key_at(s: &[u8], p: usize) -> Read<Key>
    ensures { of_key result ≡ on (read (by_place false) key_front) s.now p }
{
    let key = int16_at(s, p)?;
    let min = int16_at(s, key.next)?;
    let max = int16_at(s, min.next)?;
    Ok(Taken {
        value: Key {
            key: key.value,
            min: min.value,
            max: max.value,
        },
        next: max.next,
    })
}

// Most items have no tags: their bytes are there, and the last is 0.
pub(crate) fn is_bare(s: &[u8], p: usize, flexible: bool) -> bool
    ensures { IsBare flexible s.now p result }
{
    if flexible && p < less(s.len(), 6) {
        let rest = &s[p..];
        return rest[6] == 0;
    }
    false
}

// The row of an item without tags, from its numbers; where it has no room they are passed over.
fn bare_in(s: &[u8], p: usize, items: &mut [u64], row: usize) -> usize
    requires { p + 6 ≤ length s.now }
    ensures { Bare s.now p items.old row items.new result }
{
    if items.len() <= row {
        return skip4(row);
    }
    match key_at(&s[p..p + 6], 0) {
        Ok(
            Taken {
                value: Key { key, min, max },
                ..
            },
        ) => { store_row(items, row, [key, min, max, 0]) }
        // Never: the bytes of three numbers are there.
        Err(_) => row,
    }
}

// One item into the tables, where there is room.
fn item_at(
    s: &[u8],
    p: usize,
    flexible: bool,
    items: &mut [u64],
    row: usize,
    tags: &mut [u64],
    tag: usize,
) -> Result<Rows, Refusal>
    ensures { Runs (λ e. walk e.0 (key_shape flexible) 1) s.now p (in_tables items.old row tags.old tag) (rows_is items.new tags.new result) }
{
    if is_bare(s, p, flexible) {
        return Ok(Rows {
            next: p + 7,
            items: bare_in(s, p, items, row),
            tags: tag,
        });
    }
    let Taken {
        value: Key { key, min, max },
        next,
    } = key_at(s, p)?;
    let own = tags_if(s, next, flexible, tags, tag)?;
    Ok(Rows {
        next: own.next,
        items: store_row(items, row, [key, min, max, own.count]),
        tags: own.mark,
    })
}

// `count` items from place p on, from the start of the tables on.
pub(crate) fn items_in(
    s: &[u8],
    p: usize,
    flexible: bool,
    count: u64,
    items: &mut [u64],
    tags: &mut [u64],
) -> Result<Rows, Refusal>
    ensures { Runs (λ e. loop count (walk e.0 (key_shape flexible) 1)) s.now p (in_tables items.old 0 tags.old 0) (rows_is items.new tags.new result) }
{
    let mut rows = Rows {
        next: p,
        items: 0,
        tags: 0,
    };
    for _done in 0..count {
        rows = item_at(s, rows.next, flexible, items, rows.items, tags, rows.tags)?;
    }
    Ok(rows)
}
