// The host of a node, in a message read as a Metadata response.
ghost use Rattle.std.specs.Prelude.{◌≡◌};
ghost use Rattle.layout.specs.Lookup.{lookup};
ghost use Rattle.metadata_lookup.specs.Hosts.{of_host};
ghost use Rattle.gateway_metadata.specs.Replies.{host_numbers};

use crate::HostNumbers;
use metadata_lookup::Host;

fn reply(h: Host) -> HostNumbers
    ensures { result ≡ host_numbers (of_host h) }
{
    match h {
        Ok(Some(part)) => HostNumbers {
            number: 0,
            place: 0,
            need: 0,
            found: 1,
            start: part.start as u64,
            length: part.len as u64,
        },
        Ok(None) => HostNumbers {
            number: 0,
            place: 0,
            need: 0,
            found: 0,
            start: 0,
            length: 0,
        },
        Err(e) => HostNumbers {
            number: e.number as u64,
            place: e.place as u64,
            need: e.need as u64,
            found: 0,
            start: 0,
            length: 0,
        },
    }
}

// `node` is a cell, as in the table of brokers.
#[tactic(auto, using(crate::proofs::Rows::host_told))]
pub fn befrolan_find_host(msg: &[u8], version: i64, node: u64) -> HostNumbers
    ensures { result ≡ host_numbers (lookup node version msg.now) }
{
    reply(metadata_lookup::host_of(msg, version, node))
}
