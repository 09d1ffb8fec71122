// The Metadata response, versions 0 to 4, read into five tables: brokers, and topics with their partitions, and these with their replicas.
// Numbers are cells, as in the tables: 64 bits, two's complement.
#![tactic(auto)]

use primitives::{Field, Read};

pub mod body;
pub mod brokers;
pub mod marks;
mod naming;
mod nodes;
mod numbers;
mod partitions;
pub mod reading;
mod topics;

pub use crate::reading::read;

// The own row of a response: throttle time (from version 3 on), number of brokers, cluster (from 2 on, and it may be null), controller (from 1 on), and number of topics.
#[derive(Clone, Copy)]
pub struct ResponseBody {
    pub throttle: Option<u64>,
    pub brokers: u64,
    pub cluster: Field,
    pub controller: Option<u64>,
    pub topics: u64,
}

// The own row of a response, and the number of bytes used.
pub type ResponseReply = Read<ResponseBody>;
