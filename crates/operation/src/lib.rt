// One step of evaluation: which operands a record's expression evaluates, in which order, and what it makes of their values.
#![tactic(auto)]

pub mod after;
pub mod leaf;
pub mod order;
