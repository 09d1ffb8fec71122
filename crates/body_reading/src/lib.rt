// What every reader of a body uses, from bytes to tables: primitives at a place of the message, fields that a version may lack, stores into lent tables, and what is checked before a walk.
#![tactic(auto)]

pub mod cells;
pub mod places;
pub mod tables;
pub mod versioned;
pub mod walks;
