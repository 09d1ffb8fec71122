// The C interface to Metadata bodies and to the lookup of a host: each answer as a struct of numbers, of the form that crates/gateway/src/lib.rt has.
#![tactic(auto)]

use gateway::Numbers;

pub mod hosts;
pub mod request;
pub mod response;

// A Metadata response: `timed` and `controlled` are 0 where there is no throttle time or controller and 2 where there is one;
// `clustered` is 0 where there is no cluster in that version, 1 where it is null, and 2 where it is a part of the message.
#[repr(C)]
#[derive(Drop)]
pub struct MetadataNumbers {
    pub answer: Numbers,
    pub timed: u64,
    pub throttle: u64,
    pub brokers: u64,
    pub clustered: u64,
    pub cstart: u64,
    pub clength: u64,
    pub controlled: u64,
    pub controller: u64,
    pub topics: u64,
}

// A host: `found` is 1 where there is a broker with that node, and its host, which may be empty, is a part of the message; it is 0 where there is none.
#[repr(C)]
#[derive(Drop)]
pub struct HostNumbers {
    pub number: u64,
    pub place: u64,
    pub need: u64,
    pub found: u64,
    pub start: u64,
    pub length: u64,
}
