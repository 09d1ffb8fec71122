// The C interface to Fetch bodies: each answer as a struct of numbers, of the form that crates/gateway/src/lib.rt has.
#![tactic(auto)]

use gateway::Numbers;

pub mod request;
pub mod response;

// A Fetch response: `timed` is 0 where there is no throttle time and 2 where there is one.
// A kind beside its number: the C interface.
#[repr(C)]
#[derive(Clone, Copy)]
pub struct FetchNumbers {
    pub answer: Numbers,
    pub timed: u64,
    pub throttle: u64,
    pub topics: u64,
}
