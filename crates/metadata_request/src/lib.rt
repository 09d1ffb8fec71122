// The Metadata request, versions 0 to 4: the topics that a client asks for, written.
// Numbers are cells, as in the tables: 64 bits, two's complement.
#![tactic(auto)]

mod judge;
mod naming;
mod writing;

pub use crate::writing::write;

// The own row of a request: the number of topics, the cell of -1 for null (all topics), and auto-creation, whether the broker may create topics.
// A writer may leave auto-creation unset, and then it may.
#[derive(Clone, Copy)]
pub struct RequestBody {
    pub topics: u64,
    pub creation: Option<bool>,
}
