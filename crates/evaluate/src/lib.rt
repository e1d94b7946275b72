// Evaluation: the value of an expression under the bindings in force, in a state and a log.
#![tactic(auto)]

pub mod walk;
pub mod whole;
