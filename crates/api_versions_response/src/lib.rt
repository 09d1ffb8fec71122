// The ApiVersions response, versions 0 to 3: what a broker offers, read, read whole, and written; what was written comes back.
// Numbers are cells, as in the tables: 64 bits, two's complement.
#![tactic(auto)]

use primitives::Read;

mod items;
mod judge;
mod naming;
mod naming_written;
mod reading;
mod writing;

pub use reading::{read, read_answer, read_whole};
pub use writing::write;

// The own row of a response: error, number of items, throttle time (from version 1 on, and a writer may leave it unset), and number of its own tags, the cell of -1 where they are unset or absent.
#[derive(Clone, Copy)]
pub struct ResponseBody {
    pub error: u64,
    pub items: u64,
    pub throttle: Option<u64>,
    pub tags: u64,
}

// The own row of a response and the bytes used.
pub type ResponseReply = Read<ResponseBody>;
