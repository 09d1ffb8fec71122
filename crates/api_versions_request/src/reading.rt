// The ApiVersions request, read: nothing in versions 0 to 2, and in 3 two texts and tagged fields.
ghost use Rattle.std.specs.Prelude.{◌≡◌, false, [], ◌∷◌, ◌≤◌};
ghost use Rattle.layout.specs.Answers.{prefix_read, shape};
ghost use Rattle.layout.specs.Messages.ApiVersions as Api;
ghost use Rattle.body_reading.specs.Store.{own, tab};
ghost use Rattle.body_reading.specs.Walk.{on, walk};
ghost use Rattle.api_versions_request.specs.Answers.{of_request_reply};
ghost use Rattle.api_versions_request.specs.Walks.{of_request_walked};

use crate::{RequestBody, RequestReply};
use body_reading::places::compact_string_at;
use body_reading::walks::admit;
use primitives::{MINUS_ONE, Refusal, Taken, no_room};
use tagged_fields::reading::tag_buffer_at;

// The fields, the place after them, and the mark of the tags' table.
#[derive(Clone, Copy)]
pub struct RequestWalked {
    pub body: RequestBody,
    pub next: usize,
    pub mark: usize,
}

// Version 3.
fn flexible(msg: &[u8], table: &mut [u64]) -> Result<RequestWalked, Refusal>
    ensures { of_request_walked table.new result ≡ on (walk false (shape Api.request 3) 0 (own [] ∷ tab table.old 0 ∷ [])) msg.now 0 }
{
    let name = compact_string_at(msg, 0)?;
    let version = compact_string_at(msg, name.next)?;
    let tags = tag_buffer_at(msg, version.next, table, 0)?;
    Ok(RequestWalked {
        body: RequestBody {
            name: Some(name.value),
            version: Some(version.value),
            tags: tags.count,
        },
        next: tags.next,
        mark: tags.mark,
    })
}

// Any version; those below 3 have no field.
fn body(msg: &[u8], version: u64, table: &mut [u64]) -> Result<RequestWalked, Refusal>
    requires { version ≤ 3 }
    ensures { of_request_walked table.new result ≡ on (walk false (shape Api.request version) 0 (own [] ∷ tab table.old 0 ∷ [])) msg.now 0 }
{
    if version < 3 {
        return Ok(RequestWalked {
            body: RequestBody {
                name: None,
                version: None,
                tags: MINUS_ONE,
            },
            next: 0,
            mark: 0,
        });
    }
    flexible(msg, table)
}

// The request at the front of a message. Its tags' rows go to the table from its start on, three cells each; after a refusal the table is as it was.
pub fn read(msg: &[u8], version: i64, tags: &mut [u64]) -> RequestReply
    ensures { (of_request_reply result, tags.new ∷ []) ≡ prefix_read Api.request version (tags.old ∷ []) msg.now }
{
    let v = admit(version, 3, msg.len())?;
    // Over no room the walk measures.
    let walked = body(msg, v, &mut tags[..0])?;
    if tags.len() / 3 < walked.mark / 3 {
        return Err(no_room(walked.mark / 3));
    }
    // What fits the table is read again as it was.
    let _ = body(msg, v, tags);
    Ok(Taken {
        value: walked.body,
        next: walked.next,
    })
}
