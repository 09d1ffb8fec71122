// A primitive at the front of an output: `kind` says which, in the order of `kinds` (specs/Kinds.antt). `value` is the cell of a number, or a count;
// `content` is a text or data; `null` says that it is null, where the kind has one. What a kind does not take is not looked at.
ghost use Rattle.std.specs.Prelude.{◌≡◌, false, [], ◌<◌, ◌≤◌};
ghost use Rattle.primitives_put.specs.Answers.{replied};
ghost use Rattle.gateway_primitives.specs.Kinds.{write_kind};

use primitives::signs::signed;
use primitives::{NO_VERSION, at, is_set};
use primitives_calls::write;
use primitives_put::Written;

fn integers(out: &mut [u8], kind: u64, value: u64) -> Written
    requires { kind < 4 }
    ensures { replied result out.new ≡ write_kind kind false value [] out.old }
{
    match kind {
        0 => write::int8(out, signed(value)),
        1 => write::int16(out, signed(value)),
        2 => write::int32(out, signed(value)),
        _ => write::int64(out, signed(value)),
    }
}

fn others(out: &mut [u8], kind: u64, value: u64) -> Written
    requires { (4 ≤ kind) × (kind < 8) }
    ensures { replied result out.new ≡ write_kind kind false value [] out.old }
{
    match kind {
        4 => write::boolean(out, is_set(value)),
        5 => write::unsigned_varint(out, value),
        6 => write::varint(out, signed(value)),
        _ => write::varlong(out, signed(value)),
    }
}

fn counts(out: &mut [u8], kind: u64, null: bool, value: u64) -> Written
    requires { (8 ≤ kind) × (kind < 10) }
    ensures { replied result out.new ≡ write_kind kind null value [] out.old }
{
    let count = (!null).then_some(value);
    match kind {
        8 => write::array_count(out, count),
        _ => write::compact_array_count(out, count),
    }
}

fn blobs(out: &mut [u8], kind: u64, null: bool, content: &[u8]) -> Written
    requires { (10 ≤ kind) × (kind < 14) }
    ensures { replied result out.new ≡ write_kind kind null 0 content.now out.old }
{
    let value = (!null).then_some(content);
    match kind {
        10 => write::bytes(out, content),
        11 => write::nullable_bytes(out, value),
        12 => write::compact_bytes(out, content),
        _ => write::records(out, content),
    }
}

fn texts(out: &mut [u8], kind: u64, null: bool, content: &[u8]) -> Written
    requires { (14 ≤ kind) × (kind < 18) }
    ensures { replied result out.new ≡ write_kind kind null 0 content.now out.old }
{
    let value = (!null).then_some(content);
    match kind {
        14 => write::string(out, content),
        15 => write::nullable_string(out, value),
        16 => write::compact_string(out, content),
        _ => write::compact_nullable_string(out, value),
    }
}

// A kind that there is not is refused as a version that there is not.
pub(crate) fn primitive(
    out: &mut [u8],
    kind: u64,
    null: bool,
    value: u64,
    content: &[u8],
) -> Written
    ensures { replied result out.new ≡ write_kind kind null value content.now out.old }
{
    if kind < 4 {
        return integers(out, kind, value);
    }
    if kind < 8 {
        return others(out, kind, value);
    }
    if kind < 10 {
        return counts(out, kind, null, value);
    }
    if kind < 14 {
        return blobs(out, kind, null, content);
    }
    if kind < 18 {
        return texts(out, kind, null, content);
    }
    Err(at(NO_VERSION, 0))
}
