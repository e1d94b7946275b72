// Loads and stores over the buffer that the log is kept in.
#![tactic(auto)]

pub mod addresses;
pub mod chain;
pub mod load;
pub mod store;
