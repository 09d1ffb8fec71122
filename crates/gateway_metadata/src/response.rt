// Metadata responses: a body's own row is throttle time (kind, number), number of brokers, cluster (kind, start, length), controller (kind, number), number of topics.
ghost use Rattle.std.specs.Prelude.{◌≡◌, [], ◌∷◌};
ghost use Rattle.layout.specs.Answers.{accepted, prefix_read};
ghost use Rattle.layout.specs.Messages.Metadata as Meta;
ghost use Rattle.metadata_response.specs.Answers.{of_response, of_response_reply};
ghost use Rattle.gateway.specs.Replies.{told};
ghost use Rattle.gateway_metadata.specs.Replies.{metadata_numbers};

use crate::MetadataNumbers;
use body_reading::cells;
use metadata_response::{ResponseBody, ResponseReply};

#[tactic(auto, using(crate::proofs::Rows::fields_told))]
fn accepted(body: ResponseBody, used: usize) -> MetadataNumbers
    ensures { result ≡ metadata_numbers (accepted (of_response body) used) }
{
    MetadataNumbers {
        answer: gateway::accepted(used),
        timed: cells::kind(body.throttle),
        throttle: cells::given(body.throttle, 0),
        brokers: body.brokers,
        clustered: cells::field_kind(body.cluster),
        cstart: cells::field_start(body.cluster),
        clength: cells::field_length(body.cluster),
        controlled: cells::kind(body.controller),
        controller: cells::given(body.controller, 0),
        topics: body.topics,
    }
}

// What the reader answers, as numbers.
fn reply(r: ResponseReply) -> MetadataNumbers
    ensures { result ≡ metadata_numbers (of_response_reply r) }
{
    match r {
        Ok(taken) => accepted(taken.value, taken.next),
        Err(e) => MetadataNumbers {
            answer: gateway::refused(e),
            timed: 0,
            throttle: 0,
            brokers: 0,
            clustered: 0,
            cstart: 0,
            clength: 0,
            controlled: 0,
            controller: 0,
            topics: 0,
        },
    }
}

pub fn befrolan_read_metadata_response(
    msg: &[u8],
    version: i64,
    brokers: &mut [u64],
    topics: &mut [u64],
    partitions: &mut [u64],
    replicas: &mut [u64],
    synced: &mut [u64],
) -> MetadataNumbers
    ensures { (result, brokers.new ∷ topics.new ∷ partitions.new ∷ replicas.new ∷ synced.new ∷ []) ≡ told metadata_numbers (prefix_read Meta.response version (brokers.old ∷ topics.old ∷ partitions.old ∷ replicas.old ∷ synced.old ∷ []) msg.now) }
{
    reply(metadata_response::read(msg, version, brokers, topics, partitions, replicas, synced))
}
