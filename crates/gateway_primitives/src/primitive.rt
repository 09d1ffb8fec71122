// Primitives, each by itself: `kind` says which, in the order of `kinds` (specs/Kinds.antt). A kind that there is not is refused with 1.
ghost use Rattle.std.specs.Prelude.{◌≡◌};
ghost use Rattle.gateway_primitives.specs.Kinds.{of_reply, read_kind, write_kind};
ghost use Rattle.primitives.specs.Answers.{is_set};
ghost use Rattle.gateway.specs.Replies.{numbers, told};
ghost use Rattle.gateway_primitives.specs.Replies.{primitive_numbers};

use crate::kinds::Reply;
use crate::{PrimitiveNumbers, read_kind, write_kind};
use gateway::{Numbers, written};
use primitives::{Taken, is_set};

// What a reader answers, as numbers.
fn reply(r: Reply) -> PrimitiveNumbers
    ensures { result ≡ primitive_numbers (of_reply r) }
{
    match r {
        Ok(Taken { value, next }) => PrimitiveNumbers {
            number: 0,
            place: 0,
            need: 0,
            used: next as u64,
            form: value.form,
            value: value.value,
            length: value.length,
        },
        Err(e) => PrimitiveNumbers {
            number: e.number as u64,
            place: e.place as u64,
            need: e.need as u64,
            used: 0,
            form: 0,
            value: 0,
            length: 0,
        },
    }
}

pub fn befrolan_read_primitive(msg: &[u8], kind: u64) -> PrimitiveNumbers
    ensures { result ≡ primitive_numbers (read_kind kind msg.now) }
{
    reply(read_kind::primitive(msg, kind))
}

// `value` is the cell of a number, or a count; `content` is a text or data; `null` is not 0 for null, where the kind has one.
pub fn befrolan_write_primitive(
    out: &mut [u8],
    kind: u64,
    null: u64,
    value: u64,
    content: &[u8],
) -> Numbers
    ensures { (result, out.new) ≡ told numbers (write_kind kind (is_set null) value content.now out.old) }
{
    written(write_kind::primitive(out, kind, is_set(null), value, content))
}
