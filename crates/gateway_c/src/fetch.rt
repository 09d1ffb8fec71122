// Fetch bodies. The rows are those of gateway_fetch/src/request.rt and response.rt.
ghost use Rattle.std.specs.Prelude.{◌≡◌, [], ◌∷◌};
ghost use Rattle.layout.specs.Answers.{prefix_read, write_answer};
ghost use Rattle.layout.specs.Messages.Fetch as Fetch;
ghost use Rattle.gateway.specs.Replies.{numbers, told};
ghost use Rattle.gateway_fetch.specs.Replies.{fetch_numbers, request_row};

use gateway::Numbers;
use gateway_fetch::{FetchNumbers, request, response};

#[unsafe(no_mangle)]
pub extern "C" fn befrolan_read_fetch_response(
    msg: &[u8],
    version: i64,
    topics: &mut [u64],
    partitions: &mut [u64],
    aborted: &mut [u64],
) -> FetchNumbers
    ensures { (result, topics.new ∷ partitions.new ∷ aborted.new ∷ []) ≡ told fetch_numbers (prefix_read Fetch.response version (topics.old ∷ partitions.old ∷ aborted.old ∷ []) msg.now) }
{
    response::befrolan_read_fetch_response(msg, version, topics, partitions, aborted)
}

// `body` is the own row; `topics` has a row of start and length of each name, which is a part of `lent`, and number of partitions; `partitions` one of index, offset and max bytes.
#[unsafe(no_mangle)]
pub extern "C" fn befrolan_write_fetch_request(
    out: &mut [u8],
    version: i64,
    lent: &[u8],
    body: &[u64; 8],
    topics: &[u64],
    partitions: &[u64],
) -> Numbers
    ensures { (result, out.new) ≡ told numbers (write_answer Fetch.request version lent.now (request_row body.now ∷ topics.now ∷ partitions.now ∷ []) out.old) }
{
    request::befrolan_write_fetch_request(out, version, lent, body, topics, partitions)
}
