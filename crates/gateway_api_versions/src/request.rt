// ApiVersions requests: a body's own row is the client's name and its version (kind, start, length each) and the number of tags.
ghost use Rattle.std.specs.Prelude.{◌≡◌, [], ◌∷◌, get_or};
ghost use Rattle.layout.specs.Answers.{accepted, prefix_read, write_answer};
ghost use Rattle.layout.specs.Messages.ApiVersions as Api;
ghost use Rattle.api_versions_request.specs.Answers.{of_request, of_request_reply, of_text};
ghost use Rattle.gateway.specs.Replies.{numbers, told};
ghost use Rattle.gateway_api_versions.specs.Replies.{request_numbers, request_row, text_row};

use crate::RequestNumbers;
use api_versions_request::{RequestBody, Text};
use gateway::{Numbers, written};
use primitives::{Read, Span, Taken};

// 0 for a text that is absent, 2 for one that is there.
fn kind(t: Text) -> u64
    ensures { result ≡ get_or (of_text t) 0 0 }
{
    match t {
        None => 0,
        Some(_) => 2,
    }
}

fn start(t: Text) -> u64
    ensures { result ≡ get_or (of_text t) 1 0 }
{
    match t {
        None => 0,
        Some(part) => part.start as u64,
    }
}

fn length(t: Text) -> u64
    ensures { result ≡ get_or (of_text t) 2 0 }
{
    match t {
        None => 0,
        Some(part) => part.len as u64,
    }
}

fn accepted(body: RequestBody, used: usize) -> RequestNumbers
    ensures { result ≡ request_numbers (accepted (of_request body) used) }
{
    let name = body.name;
    let version = body.version;
    RequestNumbers {
        number: 0,
        place: 0,
        need: 0,
        used: used as u64,
        named: kind(name),
        nstart: start(name),
        nlength: length(name),
        versioned: kind(version),
        vstart: start(version),
        vlength: length(version),
        tags: body.tags,
    }
}

// What a reader answers, as numbers.
fn reply(r: Read<RequestBody>) -> RequestNumbers
    ensures { result ≡ request_numbers (of_request_reply r) }
{
    match r {
        Ok(Taken { value, next }) => accepted(value, next),
        Err(e) => RequestNumbers {
            number: e.number as u64,
            place: e.place as u64,
            need: e.need as u64,
            used: 0,
            named: 0,
            nstart: 0,
            nlength: 0,
            versioned: 0,
            vstart: 0,
            vlength: 0,
            tags: 0,
        },
    }
}

pub fn befrolan_read_api_versions_request(
    msg: &[u8],
    version: i64,
    tags: &mut [u64],
) -> RequestNumbers
    ensures { (result, tags.new ∷ []) ≡ told request_numbers (prefix_read Api.request version (tags.old ∷ []) msg.now) }
{
    reply(api_versions_request::read(msg, version, tags))
}

// ---- written

// Kind 0 is unset, any other present.
fn text_of(kind: u64, start: u64, length: u64) -> Text
    ensures { of_text result ≡ text_row kind start length }
{
    if kind == 0 {
        return None;
    }
    Some(Span {
        start: start as usize,
        len: length as usize,
    })
}

fn body_of(row: &[u64; 7]) -> RequestBody
    ensures { of_request result ≡ request_row row.now }
{
    RequestBody {
        name: text_of(row[0], row[1], row[2]),
        version: text_of(row[3], row[4], row[5]),
        tags: row[6],
    }
}

// `body` is the own row; `tags` is the table; texts and data are parts of `lent`.
pub fn befrolan_write_api_versions_request(
    out: &mut [u8],
    version: i64,
    lent: &[u8],
    body: &[u64; 7],
    tags: &[u64],
) -> Numbers
    ensures { (result, out.new) ≡ told numbers (write_answer Api.request version lent.now (request_row body.now ∷ tags.now ∷ []) out.old) }
{
    written(api_versions_request::write(out, version, lent, body_of(body), tags))
}
