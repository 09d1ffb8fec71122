// The field of an ApiVersions request in which the place of a refusal lies: name and version of the client's software, and tagged fields, all in version 3.
ghost use Rattle.std.specs.Prelude.{◌≡◌, leb};
ghost use Rattle.layout.specs.Answers.{none_yet};
ghost use Rattle.layout.specs.Names.{name_at, seek};
ghost use Rattle.layout.specs.Reading.{nowhere};
ghost use Rattle.primitives.specs.Answers.{of_refusal};
ghost use Rattle.body_reading.specs.Walk.{on};
ghost use Rattle.names.specs.Walks.{of_named, of_sought};
ghost use Rattle.api_versions_request.specs.Shapes.{request_shape};

use names::fields::compact_string;
use names::tags::tags_if;
use names::{API_VERSIONS_REQUEST, Found, Named, Sought, is_fieldless, named_by, without_field};
use primitives::{MINUS_ONE, Refusal};

const TAGS: usize = 1;

fn body(s: &[u8], q: usize, v: u64, begun: &mut [u64]) -> Sought
    ensures { of_sought begun.new result ≡ on (seek q (request_shape (leb 3 v)) nowhere 0 begun.old) s.now 0 }
{
    if v < 3 {
        return Ok(0);
    }
    let row = MINUS_ONE;
    let p = compact_string(s, 0, q).ok_or(Found { row, field: 0 })?;
    let p = compact_string(s, p, q).ok_or(Found { row, field: 1 })?;
    tags_if(s, p, q, true, TAGS, row, 2, begun)
}

// The refusal e of a request at version v, which there is, with its name.
pub(crate) fn with_name(e: Refusal, msg: &[u8], v: u64) -> Named
    ensures { of_named result ≡ name_at 1 (request_shape (leb 3 v)) none_yet 0 msg.now (of_refusal e) }
{
    if is_fieldless(e.number) {
        return without_field(e, API_VERSIONS_REQUEST);
    }
    let mut begun = [0u64; 8];
    named_by(e, API_VERSIONS_REQUEST, body(msg, e.place, v, &mut begun))
}
