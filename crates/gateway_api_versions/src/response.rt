// ApiVersions responses: a body's own row is error, number of items, throttle time (kind, number) and number of tags.
ghost use Rattle.std.specs.Prelude.{◌≡◌, [], ◌∷◌};
ghost use Rattle.layout.specs.Answers.{accepted, read_answer, write_answer};
ghost use Rattle.layout.specs.Messages.ApiVersions as Api;
ghost use Rattle.api_versions_response.specs.Answers.{of_response, of_response_reply};
ghost use Rattle.primitives.specs.Answers.{is_set};
ghost use Rattle.gateway.specs.Replies.{numbers, told};
ghost use Rattle.gateway_api_versions.specs.Replies.{response_numbers, response_row};

use crate::ResponseNumbers;
use api_versions_response::ResponseBody;
use body_reading::cells::{given, kind, of_row};
use gateway::{Numbers, written};
use primitives::{Read, Taken};

fn accepted(body: ResponseBody, used: usize) -> ResponseNumbers
    ensures { result ≡ response_numbers (accepted (of_response body) used) }
{
    ResponseNumbers {
        number: 0,
        place: 0,
        need: 0,
        used: used as u64,
        error: body.error,
        items: body.items,
        kind: kind(body.throttle),
        throttle: given(body.throttle, 0),
        tags: body.tags,
    }
}

// What a reader answers, as numbers.
fn reply(r: Read<ResponseBody>) -> ResponseNumbers
    ensures { result ≡ response_numbers (of_response_reply r) }
{
    match r {
        Ok(Taken { value, next }) => accepted(value, next),
        Err(e) => ResponseNumbers {
            number: e.number as u64,
            place: e.place as u64,
            need: e.need as u64,
            used: 0,
            error: 0,
            items: 0,
            kind: 0,
            throttle: 0,
            tags: 0,
        },
    }
}

// A prefix read where `whole` is 0, else a whole one, as the answer to a request at that version is read.
pub fn befrolan_read_api_versions_response(
    msg: &[u8],
    version: i64,
    whole: u64,
    items: &mut [u64],
    tags: &mut [u64],
) -> ResponseNumbers
    ensures { (result, items.new ∷ tags.new ∷ []) ≡ told response_numbers (read_answer (is_set whole) Api.response version (items.old ∷ tags.old ∷ []) msg.now) }
{
    if whole == 0 {
        return reply(api_versions_response::read(msg, version, items, tags));
    }
    reply(api_versions_response::read_answer(msg, version, items, tags))
}

// ---- written

fn body_of(row: &[u64; 5]) -> ResponseBody
    ensures { of_response result ≡ response_row row.now }
{
    ResponseBody {
        error: row[0],
        items: row[1],
        throttle: of_row(row[2], row[3]),
        tags: row[4],
    }
}

// `body` is the own row; `items` and `tags` are the tables; data are parts of `lent`.
pub fn befrolan_write_api_versions_response(
    out: &mut [u8],
    version: i64,
    lent: &[u8],
    body: &[u64; 5],
    items: &[u64],
    tags: &[u64],
) -> Numbers
    ensures { (result, out.new) ≡ told numbers (write_answer Api.response version lent.now (response_row body.now ∷ items.now ∷ tags.now ∷ []) out.old) }
{
    written(api_versions_response::write(out, version, lent, body_of(body), items, tags))
}
