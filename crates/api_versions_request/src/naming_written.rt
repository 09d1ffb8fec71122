// The field of a request that a refused write names: a text that is not UTF-8. Versions below 3 have no fields, and tags have no fault.
ghost use Rattle.std.specs.Prelude.{[], ◌++◌, ◌∷◌, ◌≡◌};
ghost use Rattle.layout.specs.Answers.{meant, none_yet};
ghost use Rattle.layout.specs.Names.{name_fault};
ghost use Rattle.layout.specs.Reading.{nowhere};
ghost use Rattle.layout.specs.Utf8.{utf8};
ghost use Rattle.layout.specs.Write.{unless};
ghost use Rattle.primitives.specs.Answers.{of_refusal};
ghost use Rattle.names.specs.Walks.{of_named};
ghost use Rattle.body_writing.specs.Blames.{of_blamed, row_blame};
ghost use Rattle.api_versions_request.specs.Answers.{of_text};
ghost use Rattle.api_versions_request.specs.Shapes.{texts_if};

use crate::Text;
use crate::writing::bytes_of;
use body_writing::blames::{Blamed, blamed_by};
use names::{API_VERSIONS_REQUEST, Found, Named, is_fieldless, without_field};
use primitives::{MINUS_ONE, NOT_TEXT, Refusal};

// No length is too much for a compact string.
fn compact_fault(text: &[u8]) -> u8
    ensures { result ≡ unless (utf8 text.now) 7 }
{
    if utf8::is_text(text) {
        return 0;
    }
    NOT_TEXT
}

// The first text whose fault is e. An unset one is empty, and has none.
fn texts(e: u8, flexible: bool, lent: &[u8], name: Text, version: Text) -> Blamed
    ensures { of_blamed none_yet result ≡ row_blame lent.now e (texts_if flexible) nowhere 0 none_yet (of_text name ++ of_text version) }
{
    if !flexible {
        return Ok(());
    }
    if compact_fault(bytes_of(lent, name)) == e {
        return Err(Found {
            row: MINUS_ONE,
            field: 0,
        });
    }
    if compact_fault(bytes_of(lent, version)) == e {
        return Err(Found {
            row: MINUS_ONE,
            field: 1,
        });
    }
    Ok(())
}

// The refusal e with its name.
pub(crate) fn with_name(e: Refusal, flexible: bool, lent: &[u8], name: Text, version: Text) -> Named
    ensures { of_named result ≡ name_fault 1 (texts_if flexible) none_yet (meant lent.now ((of_text name ++ of_text version) ∷ []) (texts_if flexible)) (of_refusal e) }
{
    if is_fieldless(e.number) {
        return without_field(e, API_VERSIONS_REQUEST);
    }
    blamed_by(
        e,
        API_VERSIONS_REQUEST,
        texts(e.number, flexible, lent, name, version),
    )
}
