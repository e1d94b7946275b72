// How expressions and statements stand together. The rules of refusals 8 to 11 are defined here; the checks are of 8 to 10: that each expression
// is used exactly once, and how deep expressions and statements go.
//
// The checks here run on a table whose frame and records hold: refusals 1 to 7 did not come.
#![tactic(auto)]

pub mod depth;
pub mod nesting;
pub mod operands;
pub mod uses;
