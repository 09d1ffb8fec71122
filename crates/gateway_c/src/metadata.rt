// Metadata bodies, and the host of a node. The rows are those of gateway_metadata/src/request.rt and response.rt.
ghost use Rattle.std.specs.Prelude.{◌≡◌, [], ◌∷◌};
ghost use Rattle.layout.specs.Answers.{prefix_read, write_answer};
ghost use Rattle.layout.specs.Lookup.{lookup};
ghost use Rattle.layout.specs.Messages.Metadata as Meta;
ghost use Rattle.gateway.specs.Replies.{numbers, told};
ghost use Rattle.gateway_metadata.specs.Replies.{host_numbers, metadata_numbers, request_row};

use gateway::Numbers;
use gateway_metadata::{HostNumbers, MetadataNumbers, hosts, request, response};

#[unsafe(no_mangle)]
pub extern "C" fn befrolan_read_metadata_response(
    msg: &[u8],
    version: i64,
    brokers: &mut [u64],
    topics: &mut [u64],
    partitions: &mut [u64],
    replicas: &mut [u64],
    synced: &mut [u64],
) -> MetadataNumbers
    ensures { (result, brokers.new ∷ topics.new ∷ partitions.new ∷ replicas.new ∷ synced.new ∷ []) ≡ told metadata_numbers (prefix_read Meta.response version (brokers.old ∷ topics.old ∷ partitions.old ∷ replicas.old ∷ synced.old ∷ []) msg.now) }
{
    response::befrolan_read_metadata_response(
        msg, version, brokers, topics, partitions, replicas, synced,
    )
}

// `body` is the own row; `topics` has a row of start and length of each name, which is a part of `lent`.
#[unsafe(no_mangle)]
pub extern "C" fn befrolan_write_metadata_request(
    out: &mut [u8],
    version: i64,
    lent: &[u8],
    body: &[u64; 3],
    topics: &[u64],
) -> Numbers
    ensures { (result, out.new) ≡ told numbers (write_answer Meta.request version lent.now (request_row body.now ∷ topics.now ∷ []) out.old) }
{
    request::befrolan_write_metadata_request(out, version, lent, body, topics)
}

// `node` is a cell, as in the table of brokers.
#[unsafe(no_mangle)]
pub extern "C" fn befrolan_find_host(msg: &[u8], version: i64, node: u64) -> HostNumbers
    ensures { result ≡ host_numbers (lookup node version msg.now) }
{
    hosts::befrolan_find_host(msg, version, node)
}
