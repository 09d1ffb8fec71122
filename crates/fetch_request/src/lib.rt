// The Fetch request, versions 0 to 4: the partitions that a client asks for, written.
// Numbers are cells, as in the tables: 64 bits, two's complement.
#![tactic(auto)]

mod judge;
mod naming;
mod writing;

pub use writing::write;

// The own row of a request. The most bytes of an answer (from version 3 on) and the isolation level (in 4) may be left unset.
#[derive(Clone, Copy)]
pub struct RequestBody {
    pub replica: u64,
    pub max_wait: u64,
    pub min_bytes: u64,
    pub max_bytes: Option<u64>,
    pub isolation: Option<u64>,
    pub topics: u64,
}

// The numbers in front of the topics as they are written, none of them unset. Max bytes and the isolation level are `None` where the version lacks them.
#[derive(Clone, Copy)]
pub(crate) struct Own {
    pub replica: u64,
    pub wait: u64,
    pub least: u64,
    pub largest: Option<u64>,
    pub level: Option<u64>,
}
