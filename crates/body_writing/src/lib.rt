// What every writer of a body uses, from tables to bytes: ranges inside the lent bytes, counts that add up, texts; and the laws of bytes and faults.
#![tactic(auto)]

pub mod blames;
pub mod ranges;
