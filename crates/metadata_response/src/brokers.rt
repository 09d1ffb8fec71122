// The brokers of a Metadata response: a row of node, host (start, length), port and rack (kind, start, length) each, in one lent table.
ghost use Rattle.std.specs.Prelude.{◌≡◌, false, []};
ghost use Rattle.layout.specs.Reading.{loop};
ghost use Rattle.body_reading.specs.Store.{store, tab};
ghost use Rattle.body_reading.specs.Walk.{Runs, on, row_from, walk};
ghost use Rattle.body_reading.specs.Cells.{field_cells};
ghost use Rattle.metadata_response.specs.Brokers.{address_shape, at_brokers, broker_shape, filled_is, of_address, of_broker, of_broker_row};

use body_reading::places::{int32_at, string_at};
use body_reading::tables::store_row;
use body_reading::versioned::nullable_string_if;
use body_reading::walks::Filled;
use primitives::{Field, Read, Refusal, Span, Taken};

// The rack is absent in version 0, and may be null from 1 on.
#[derive(Clone, Copy)]
pub struct Broker {
    pub node: u64,
    pub host: Span,
    pub port: u64,
    pub rack: Field,
}

// The address that a broker begins with.
#[derive(Clone, Copy)]
pub struct Address {
    pub node: u64,
    pub host: Span,
    pub port: u64,
}

fn address_at(s: &[u8], p: usize) -> Read<Address>
    ensures { of_address result ≡ on (row_from [] address_shape) s.now p }
{
    let node = int32_at(s, p)?;
    let host = string_at(s, node.next)?;
    let port = int32_at(s, host.next)?;
    Ok(Taken {
        value: Address {
            node: node.value,
            host: host.value,
            port: port.value,
        },
        next: port.next,
    })
}

// The broker at place p; `racked`: the version has racks.
pub fn broker_row(s: &[u8], p: usize, racked: bool) -> Read<Broker>
    ensures { of_broker_row result ≡ on (row_from [] (broker_shape racked)) s.now p }
{
    let address = address_at(s, p)?;
    let rack = nullable_string_if(s, address.next, racked)?;
    Ok(Taken {
        value: Broker {
            node: address.value.node,
            host: address.value.host,
            port: address.value.port,
            rack: rack.value,
        },
        next: rack.next,
    })
}

// Its kind, start and length.
#[tactic(auto, using(crate::proofs::BrokerRows::stored_rack))]
fn store_rack(table: &mut [u64], mark: usize, rack: Field) -> usize
    ensures { tab table.new result ≡ store (tab table.old mark) (field_cells rack) }
{
    match rack {
        Field::Absent => store_row(table, mark, [0, 0, 0]),
        Field::Null => store_row(table, mark, [1, 0, 0]),
        Field::Present(part) => store_row(table, mark, [2, part.start as u64, part.len as u64]),
    }
}

#[tactic(auto, using(crate::proofs::BrokerRows::stored_broker))]
fn store_broker(table: &mut [u64], mark: usize, row: Broker) -> usize
    ensures { tab table.new result ≡ store (tab table.old mark) (of_broker row) }
{
    let after = store_row(
        table,
        mark,
        [
            row.node,
            row.host.start as u64,
            row.host.len as u64,
            row.port,
        ],
    );
    store_rack(table, after, row.rack)
}

// One broker into the table, where there is room.
fn broker_at(
    s: &[u8],
    p: usize,
    racked: bool,
    table: &mut [u64],
    mark: usize,
) -> Result<Filled, Refusal>
    ensures { Runs (λ e. walk false (broker_shape racked) 1) s.now p (at_brokers table.old mark) (filled_is table.new result) }
{
    let row = broker_row(s, p, racked)?;
    let after = store_broker(table, mark, row.value);
    Ok(Filled {
        next: row.next,
        mark: after,
    })
}

// `count` brokers from place p on, from the start of the table on. The bytes end long before a count that they cannot hold.
pub(crate) fn brokers_in(
    s: &[u8],
    p: usize,
    racked: bool,
    count: u64,
    table: &mut [u64],
) -> Result<Filled, Refusal>
    ensures { Runs (λ e. loop count (walk false (broker_shape racked) 1)) s.now p (at_brokers table.old 0) (filled_is table.new result) }
{
    let mut all = Filled { next: p, mark: 0 };
    for _ in 0..count {
        all = broker_at(s, all.next, racked, table, all.mark)?;
    }
    Ok(all)
}
