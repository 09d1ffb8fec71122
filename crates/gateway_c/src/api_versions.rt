// ApiVersions bodies. The rows are those of gateway_api_versions/src/request.rt and response.rt.
ghost use Rattle.std.specs.Prelude.{◌≡◌, [], ◌∷◌};
ghost use Rattle.layout.specs.Answers.{prefix_read, read_answer, write_answer};
ghost use Rattle.layout.specs.Messages.ApiVersions as Api;
ghost use Rattle.primitives.specs.Answers.{is_set};
ghost use Rattle.gateway.specs.Replies.{numbers, told};
ghost use Rattle.gateway_api_versions.specs.Replies.{request_numbers, request_row, response_numbers, response_row};

use gateway::Numbers;
use gateway_api_versions::{RequestNumbers, ResponseNumbers, request, response};

#[unsafe(no_mangle)]
pub extern "C" fn befrolan_read_api_versions_request(
    msg: &[u8],
    version: i64,
    tags: &mut [u64],
) -> RequestNumbers
    ensures { (result, tags.new ∷ []) ≡ told request_numbers (prefix_read Api.request version (tags.old ∷ []) msg.now) }
{
    request::befrolan_read_api_versions_request(msg, version, tags)
}

// `body` is the own row; `tags` is the table; texts and data are parts of `lent`.
#[unsafe(no_mangle)]
pub extern "C" fn befrolan_write_api_versions_request(
    out: &mut [u8],
    version: i64,
    lent: &[u8],
    body: &[u64; 7],
    tags: &[u64],
) -> Numbers
    ensures { (result, out.new) ≡ told numbers (write_answer Api.request version lent.now (request_row body.now ∷ tags.now ∷ []) out.old) }
{
    request::befrolan_write_api_versions_request(out, version, lent, body, tags)
}

// A prefix read where `whole` is 0, else a whole one, as the answer to a request at that version is read.
#[unsafe(no_mangle)]
pub extern "C" fn befrolan_read_api_versions_response(
    msg: &[u8],
    version: i64,
    whole: u64,
    items: &mut [u64],
    tags: &mut [u64],
) -> ResponseNumbers
    ensures { (result, items.new ∷ tags.new ∷ []) ≡ told response_numbers (read_answer (is_set whole) Api.response version (items.old ∷ tags.old ∷ []) msg.now) }
{
    response::befrolan_read_api_versions_response(msg, version, whole, items, tags)
}

// `body` is the own row; `items` and `tags` are the tables; data are parts of `lent`.
#[unsafe(no_mangle)]
pub extern "C" fn befrolan_write_api_versions_response(
    out: &mut [u8],
    version: i64,
    lent: &[u8],
    body: &[u64; 5],
    items: &[u64],
    tags: &[u64],
) -> Numbers
    ensures { (result, out.new) ≡ told numbers (write_answer Api.response version lent.now (response_row body.now ∷ items.now ∷ tags.now ∷ []) out.old) }
{
    response::befrolan_write_api_versions_response(out, version, lent, body, items, tags)
}
