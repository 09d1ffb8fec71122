// Primitives, each by itself: `kind` says which, in the order of `kinds` (gateway_primitives/specs/Kinds.antt). A kind that there is not is refused with 1.
ghost use Rattle.std.specs.Prelude.{◌≡◌};
ghost use Rattle.primitives.specs.Answers.{is_set};
ghost use Rattle.gateway.specs.Replies.{numbers, told};
ghost use Rattle.gateway_primitives.specs.Kinds.{read_kind, write_kind};
ghost use Rattle.gateway_primitives.specs.Replies.{primitive_numbers};

use gateway::Numbers;
use gateway_primitives::PrimitiveNumbers;

#[unsafe(no_mangle)]
pub extern "C" fn befrolan_read_primitive(msg: &[u8], kind: u64) -> PrimitiveNumbers
    ensures { result ≡ primitive_numbers (read_kind kind msg.now) }
{
    gateway_primitives::primitive::befrolan_read_primitive(msg, kind)
}

// `value` is the cell of a number, or a count; `content` is a text or data; `null` is not 0 for null, where the kind has one.
#[unsafe(no_mangle)]
pub extern "C" fn befrolan_write_primitive(
    out: &mut [u8],
    kind: u64,
    null: u64,
    value: u64,
    content: &[u8],
) -> Numbers
    ensures { (result, out.new) ≡ told numbers (write_kind kind (is_set null) value content.now out.old) }
{
    gateway_primitives::primitive::befrolan_write_primitive(out, kind, null, value, content)
}
