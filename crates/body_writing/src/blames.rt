// The field of lent rows that a refusal of a writer names: the first whose fault is the refusal's number. What every walk to it shares; it runs only where a call refuses.
ghost use Rattle.std.specs.Prelude.{[], ◌≡◌};
ghost use Rattle.layout.specs.Names.{blamed};
ghost use Rattle.primitives.specs.Answers.{of_refusal};
ghost use Rattle.names.specs.Walks.{of_named};
ghost use Rattle.body_writing.specs.Blames.{of_blamed};

use names::{Found, Named, named_by, without_field};
use primitives::Refusal;

// What a walk comes to: the end of what it walks over, or the field, which ends the walk.
pub type Blamed = Result<(), Found>;

// A refusal with what its walk came to.
#[tactic(auto, using(crate::proofs::NamedFaults::by_found, crate::proofs::NamedFaults::by_past))]
pub fn blamed_by(e: Refusal, message: u8, found: Blamed) -> Named
    ensures { of_named result ≡ blamed message (of_refusal e) (of_blamed [] found) }
{
    match found {
        Err(Found { row, field }) => named_by(e, message, Err(Found { row, field })),
        Ok(()) => without_field(e, message),
    }
}
