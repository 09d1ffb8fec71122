// Metadata requests: a body's own row is the number of topics, the cell of -1 for null, and auto-creation (kind, flag).
ghost use Rattle.std.specs.Prelude.{◌≡◌, [], ◌∷◌};
ghost use Rattle.layout.specs.Answers.{write_answer};
ghost use Rattle.layout.specs.Messages.Metadata as Meta;
ghost use Rattle.metadata_request.specs.Answers.{of_creation, of_request};
ghost use Rattle.gateway.specs.Replies.{numbers, told};
ghost use Rattle.gateway_metadata.specs.Replies.{creation_row, request_row};

use gateway::{Numbers, written};
use metadata_request::RequestBody;
use primitives::is_set;

// Kind 0 is unset, any other set; flag 0 is false, any other true.
#[tactic(auto, using(crate::proofs::Rows::set_row, crate::proofs::Rows::unset_row))]
fn creation_of(kind: u64, flag: u64) -> Option<bool>
    ensures { of_creation result ≡ creation_row kind flag }
{
    if kind == 0 {
        return None;
    }
    Some(is_set(flag))
}

#[tactic(auto, unfolding(crate::specs::Replies::request_row))]
fn body_of(row: &[u64; 3]) -> RequestBody
    ensures { of_request result ≡ request_row row.now }
{
    RequestBody {
        topics: row[0],
        creation: creation_of(row[1], row[2]),
    }
}

// `body` is the own row; `topics` has a row of start and length of each name, which is a part of `lent`.
pub fn befrolan_write_metadata_request(
    out: &mut [u8],
    version: i64,
    lent: &[u8],
    body: &[u64; 3],
    topics: &[u64],
) -> Numbers
    ensures { (result, out.new) ≡ told numbers (write_answer Meta.request version lent.now (request_row body.now ∷ topics.now ∷ []) out.old) }
{
    written(metadata_request::write(out, version, lent, body_of(body), topics))
}
