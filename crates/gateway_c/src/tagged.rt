// Tagged fields: a row of the table is a tag, and start and length of its data.
ghost use Rattle.std.specs.Prelude.{◌≡◌, [], ◌∷◌, pos};
ghost use Rattle.layout.specs.Answers.{prefix_read, tags_alone, write_answer};
ghost use Rattle.gateway.specs.Replies.{numbers, told};
ghost use Rattle.gateway_primitives.specs.Replies.{tags_numbers};

use gateway::Numbers;
use gateway_primitives::TagsNumbers;

#[unsafe(no_mangle)]
pub extern "C" fn befrolan_read_tagged_fields(msg: &[u8], table: &mut [u64]) -> TagsNumbers
    ensures { (result, table.new ∷ []) ≡ told tags_numbers (prefix_read tags_alone (pos 0) (table.old ∷ []) msg.now) }
{
    gateway_primitives::tagged::befrolan_read_tagged_fields(msg, table)
}

// `count` is the number of tags, the cell of -1 for unset; data are parts of `lent`.
#[unsafe(no_mangle)]
pub extern "C" fn befrolan_write_tagged_fields(
    out: &mut [u8],
    lent: &[u8],
    count: u64,
    table: &[u64],
) -> Numbers
    ensures { (result, out.new) ≡ told numbers (write_answer tags_alone (pos 0) lent.now ((count ∷ []) ∷ table.now ∷ []) out.old) }
{
    gateway_primitives::tagged::befrolan_write_tagged_fields(out, lent, count, table)
}
