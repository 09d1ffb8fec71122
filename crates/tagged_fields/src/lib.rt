// Tagged fields, TaggedFields of primitives.rs: read and written, by themselves and in a body.
#![tactic(auto)]

pub mod reading;
pub mod writing;
