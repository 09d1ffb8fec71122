// Tagged fields: a row of the table is a tag, and start and length of its data.
ghost use Rattle.std.specs.Prelude.{◌≡◌, [], ◌∷◌, pos};
ghost use Rattle.layout.specs.Answers.{prefix_read, tags_alone, write_answer};
ghost use Rattle.tagged_fields.specs.Read.{of_tagged};
ghost use Rattle.gateway.specs.Replies.{numbers, told};
ghost use Rattle.gateway_primitives.specs.Replies.{tags_numbers};

use crate::TagsNumbers;
use gateway::{Numbers, written};
use primitives::{Read, Taken};

// What a reader answers, as numbers.
fn reply(r: Read<u64>) -> TagsNumbers
    ensures { result ≡ tags_numbers (of_tagged r) }
{
    match r {
        Ok(Taken { value, next }) => TagsNumbers {
            number: 0,
            place: 0,
            need: 0,
            used: next as u64,
            tags: value,
        },
        Err(e) => TagsNumbers {
            number: e.number as u64,
            place: e.place as u64,
            need: e.need as u64,
            used: 0,
            tags: 0,
        },
    }
}

pub fn befrolan_read_tagged_fields(msg: &[u8], table: &mut [u64]) -> TagsNumbers
    ensures { (result, table.new ∷ []) ≡ told tags_numbers (prefix_read tags_alone (pos 0) (table.old ∷ []) msg.now) }
{
    reply(tagged_fields::reading::tagged_fields(msg, table))
}

// `count` is the number of tags, the cell of -1 for unset; data are parts of `lent`.
pub fn befrolan_write_tagged_fields(
    out: &mut [u8],
    lent: &[u8],
    count: u64,
    table: &[u64],
) -> Numbers
    ensures { (result, out.new) ≡ told numbers (write_answer tags_alone (pos 0) lent.now ((count ∷ []) ∷ table.now ∷ []) out.old) }
{
    written(tagged_fields::writing::tagged_fields(out, lent, count, table))
}
