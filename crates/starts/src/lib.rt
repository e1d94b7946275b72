// Refusals 16 to 18: the starts that a run accepts.
//
// The checks here run on a table whose frame holds: refusals 1 to 4 did not come.
#![tactic(auto)]

pub mod entries;
pub mod pairs;
pub mod rules;
