// The run of a table: of an accepted one from an accepted start, and of whatever is lent.
#![tactic(auto)]

pub mod accepted;
pub mod entry;
pub mod numbers;

use running::Ending;

// What a run gives back: how it ended, the ticks it took, how many entries the log has, and the next address.
#[derive(Clone, Copy)]
pub struct Outcome {
    pub ending: Ending,
    pub ticks: u32,
    pub count: u64,
    pub next: u64,
}
