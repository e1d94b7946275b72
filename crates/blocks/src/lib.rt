// Refusal 7: what the records of statements must be, and how their bodies nest.
//
// The checks here run on a table whose frame holds: refusals 1 to 4 did not come.
#![tactic(auto)]

pub mod bodies;
pub mod room;
pub mod statements;
