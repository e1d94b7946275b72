// What a statement does by itself to a state, a log and the next address: the ones without bodies whole, and the test of a guard.
#![tactic(auto)]

pub mod guard;
pub mod single;

use base::codes::Stop;
use memory::LogBuffer;

// What a run has: the state, the log, the ticks that are left, and the next address.
#[derive(Drop)]
pub struct Machine<'s, 'm, 'l> {
    pub state: &'s mut [u64],
    pub log: &'m mut LogBuffer<'l>,
    pub ticks: u32,
    pub next: u64,
}

// A stop, by its number, at a statement.
#[derive(Clone, Copy)]
pub struct Halt {
    pub code: Stop,
    pub statement: u32,
}
