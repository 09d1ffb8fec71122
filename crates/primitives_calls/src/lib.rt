// Each primitive by itself, read and written: the calls check size and room around it. No body rests on them.
#![tactic(auto)]

pub mod read;
pub mod write;
