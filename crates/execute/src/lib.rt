// Running: blocks and statements run each other by turns.
#![tactic(auto)]

pub mod turns;
