// The field of a Metadata request that a refusal names: only a name can be at fault, the field 0 of its row.
ghost use Rattle.std.specs.Prelude.{false, [], ◌∷◌, ◌≢◌, ◌≡◌, ◌/◌, length};
ghost use Rattle.layout.specs.Answers.{meant, none_yet};
ghost use Rattle.layout.specs.Names.{name_fault};
ghost use Rattle.primitives.specs.Answers.{of_refusal};
ghost use Rattle.names.specs.Walks.{of_named};
ghost use Rattle.body_writing.specs.Blames.{of_blamed, rows_blame};
ghost use Rattle.metadata_request.specs.Shapes.{name_shape, request_shape};

use crate::judge::name_fault;
use body_writing::blames::{Blamed, blamed_by};
use names::{Found, METADATA_REQUEST, Named, begin, is_fieldless, without_field};
use primitives::Refusal;

const TOPICS: usize = 1;

// The first name whose fault is e.
fn names(e: u8, lent: &[u8], topics: &[u64], begun: &mut [u64]) -> Blamed
    ensures { of_blamed begun.new result ≡ rows_blame lent.now e name_shape 2 1 topics.now begun.old }
{
    for i in 0..topics.len() / 2 {
        let row = begin(begun, TOPICS);
        if name_fault(lent, topics, i) == e {
            return Err(Found { row, field: 0 });
        }
    }
    Ok(())
}

// The refusal e with its name. What is said of auto-creation has no part in it.
pub(crate) fn with_name(e: Refusal, lent: &[u8], topics: &[u64]) -> Named
    requires { e.number ≢ 0 }
    ensures { of_named result ≡ name_fault 3 (request_shape false) none_yet (meant lent.now ((length topics.now / 2 ∷ 2 ∷ 1 ∷ []) ∷ topics.now ∷ []) (request_shape false)) (of_refusal e) }
{
    if is_fieldless(e.number) {
        return without_field(e, METADATA_REQUEST);
    }
    let mut begun = [0u64; 8];
    blamed_by(
        e,
        METADATA_REQUEST,
        names(e.number, lent, topics, &mut begun),
    )
}
