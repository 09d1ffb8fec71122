// Fetch responses: a body's own row is throttle time (kind, number) and number of topics.
ghost use Rattle.std.specs.Prelude.{◌≡◌, [], ◌∷◌};
ghost use Rattle.layout.specs.Answers.{accepted, prefix_read};
ghost use Rattle.layout.specs.Messages.Fetch as Fetch;
ghost use Rattle.fetch_response.specs.Answers.{of_response, of_response_reply};
ghost use Rattle.gateway.specs.Replies.{told};
ghost use Rattle.gateway_fetch.specs.Replies.{fetch_numbers};

use crate::FetchNumbers;
use body_reading::cells;
use fetch_response::{ResponseBody, ResponseReply};

fn accepted(body: ResponseBody, used: usize) -> FetchNumbers
    ensures { result ≡ fetch_numbers (accepted (of_response body) used) }
{
    FetchNumbers {
        answer: gateway::accepted(used),
        timed: cells::kind(body.throttle),
        throttle: cells::given(body.throttle, 0),
        topics: body.topics,
    }
}

// What the reader answers, as numbers.
fn reply(r: ResponseReply) -> FetchNumbers
    ensures { result ≡ fetch_numbers (of_response_reply r) }
{
    match r {
        Ok(taken) => accepted(taken.value, taken.next),
        Err(e) => FetchNumbers {
            answer: gateway::refused(e),
            timed: 0,
            throttle: 0,
            topics: 0,
        },
    }
}

pub fn befrolan_read_fetch_response(
    msg: &[u8],
    version: i64,
    topics: &mut [u64],
    partitions: &mut [u64],
    aborted: &mut [u64],
) -> FetchNumbers
    ensures { (result, topics.new ∷ partitions.new ∷ aborted.new ∷ []) ≡ told fetch_numbers (prefix_read Fetch.response version (topics.old ∷ partitions.old ∷ aborted.old ∷ []) msg.now) }
{
    reply(fetch_response::read(msg, version, topics, partitions, aborted))
}
