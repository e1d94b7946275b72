// The type verdict: refusals 12 and 13, of a table whose frame and records hold and whose expressions are each used once.
//
// A table that is accepted has each expression read once, from the statement down that it belongs to. Where a statement breaks its
// rule, the lowest expression without a type is looked for from 0 up, so that an expression is read once more for each that it stands
// inside: at most 64 times, its depth.
#![tactic(auto)]

pub mod rules;
pub mod walk;
