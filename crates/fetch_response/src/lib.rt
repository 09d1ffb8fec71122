// The Fetch response, versions 0 to 4, read into three tables: topics with their partitions, and these with their aborted transactions.
// Numbers are cells, as in the tables: 64 bits, two's complement.
#![tactic(auto)]

use primitives::Read;

mod aborted;
pub mod body;
pub mod marks;
mod naming;
mod partitions;
pub mod reading;
mod topics;

pub use crate::reading::read;

// The own row of a response: throttle time (from version 1 on), and number of topics.
#[derive(Clone, Copy)]
pub struct ResponseBody {
    pub throttle: Option<u64>,
    pub topics: u64,
}

// The own row of a response and the bytes used.
pub type ResponseReply = Read<ResponseBody>;
