// The bytes that an answer names: the one call of this crate that a caller of the library uses.
ghost use Rattle.std.specs.Prelude.{◌≡◌};
ghost use Rattle.layout.specs.Tables.{slice};

use crate::parts;

// The part of the message that an answer tells of; as much of it as the message has.
pub fn part(msg: &[u8], start: usize, len: usize) -> &[u8]
    ensures { result.now ≡ slice msg.now (start, len) }
{
    let left = parts::rest(msg, start);
    if len < left.len() { &left[..len] } else { left }
}
