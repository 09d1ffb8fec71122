// What is refused of a Metadata request before a byte is written: rows that do not add up and names outside the lent bytes (13),
// and then, of the first name that has a fault, too long to be carried (11) or not text (7).
ghost use Rattle.std.specs.Prelude.{◌≡◌, false, [], ◌∷◌, get_or, length, ◌/◌, ◌<◌};
ghost use Rattle.layout.specs.Tables.{good, rows_of};
ghost use Rattle.body_writing.specs.Writes.{refusal_of, row_fault, rows_fault};
ghost use Rattle.metadata_request.specs.Shapes.{name_shape, request_shape};

use body_writing::ranges::{Row, all_ranged, part, rows_told, string_fault};
use primitives::BAD_TABLES;

// The table has the rows that the count tells, and all names are inside.
fn is_good(size: usize, count: u64, topics: &[u64]) -> bool
    ensures { result ≡ good size 1 (request_shape false) ((count ∷ 2 ∷ 1 ∷ []) ∷ topics.now ∷ []) }
{
    if rows_told(count) != (topics.len() / 2) as u64 {
        return false;
    }
    all_ranged(size, topics, Row::Name)
}

// 13, 11, 7, or 0 for none of them.
#[tactic(auto, using(crate::proofs::Request::fault_bad, crate::proofs::Request::fault_names))]
pub(crate) fn refusal(lent: &[u8], count: u64, topics: &[u64]) -> u8
    ensures { result ≡ refusal_of lent.now 1 (request_shape false) (request_shape false) ((count ∷ 2 ∷ 1 ∷ []) ∷ topics.now ∷ []) }
{
    if !is_good(lent.len(), count, topics) {
        return BAD_TABLES;
    }
    names_fault(lent, topics)
}

// The row by its number, as the writer and the walk to a fault take it too: a row off the front, as `chunks_exact` gives it, is no plainer, since they would need its number beside it.
#[tactic(auto, using(crate::proofs::Request::name_told))]
pub(crate) fn name_fault(lent: &[u8], topics: &[u64], i: usize) -> u8
    requires { i < length topics.now / 2 }
    ensures { result ≡ row_fault lent.now name_shape (get_or (rows_of 2 topics.now) i []) }
{
    string_fault(part(lent, topics[i * 2], topics[i * 2 + 1]))
}

// That of the first name that has one.
pub(crate) fn names_fault(lent: &[u8], topics: &[u64]) -> u8
    ensures { result ≡ rows_fault lent.now name_shape 2 topics.now }
{
    for i in 0..topics.len() / 2 {
        let e = name_fault(lent, topics, i);
        if e != 0 {
            return e;
        }
    }
    0
}
