// Refusals 5 and 6: what the records of variables and of expressions must be, each by itself.
//
// The checks here run on a table whose frame holds: refusals 1 to 4 did not come.
#![tactic(auto)]

pub mod expressions;
pub mod fields;
pub mod variables;
