// What is looked up in a message read as a Metadata response: the host of a node.
// The whole message is checked first; then the brokers are searched, up to the first with that node.
#![tactic(auto)]

ghost use Rattle.std.specs.Prelude.{[], ◌≡◌};
ghost use Rattle.layout.specs.Lookup.{lookup};
ghost use Rattle.layout.specs.Reading.{many};
ghost use Rattle.body_reading.specs.Walk.{row_from};
ghost use Rattle.metadata_response.specs.Brokers.{broker_shape};
ghost use Rattle.metadata_lookup.specs.Hosts.{Seeks, brokers_of, of_host};

use body_reading::versioned::front_of;
use metadata_response::brokers::broker_row;
use metadata_response::reading::measure;
use primitives::{Refusal, Span, version_of};

// The part of the message that is the host, or none where no broker has that node; or why the message is refused.
pub type Host = Result<Option<Span>, Refusal>;

// The first of `count` brokers with that node. Brokers that are refused are not met here: their message was refused before.
fn seek(s: &[u8], p: usize, racked: bool, count: u64, node: u64) -> Host
    ensures { Seeks (many count (row_from [] (broker_shape racked))) s.now p node (of_host result) }
{
    let mut place = p;
    for _ in 0..count {
        let broker = broker_row(s, place, racked)?;
        let row = broker.value;
        if row.node == node {
            return Ok(Some(row.host));
        }
        place = broker.next;
    }
    Ok(None)
}

// In a body that is accepted; `throttled`: a throttle time stands in front of the brokers.
fn host_in(s: &[u8], racked: bool, throttled: bool, node: u64) -> Host
    ensures { Seeks (brokers_of racked throttled) s.now 0 node (of_host result) }
{
    let front = front_of(s, throttled)?;
    seek(s, front.next, racked, front.count, node)
}

// The first broker with that node decides, if the whole message is accepted by a prefix read but for room.
pub fn host_of(msg: &[u8], version: i64, node: u64) -> Host
    ensures { of_host result ≡ lookup node version msg.now }
{
    measure(msg, version)?;
    let v = version_of(version);
    host_in(msg, 1 <= v, 3 <= v, node)
}
