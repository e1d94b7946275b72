// The seal verdict: refusals 14 and 15, of a table whose frame and records hold and whose expressions are each used once.
//
// A table that is clean has each expression read once, from the statement down that it belongs to. Where a statement breaks its rule,
// the lowest expression that leaks is looked for from 0 up, so that an expression is read once more for each that it stands inside: at
// most 64 times, its depth.
#![tactic(auto)]

pub mod rules;
pub mod walk;
