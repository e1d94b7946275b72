// The run of a table. Definitions and laws; the code is in `effect`, `execute` and `runner`.
#![tactic(auto)]

use base::Refusal;
use base::codes::Stop;

// How a run ended: done, refused, or stopped at a statement.
#[derive(Clone, Copy, Debug, PartialEq, Eq)]
pub enum Ending {
    Done,
    Refused(Refusal),
    Stopped(Stop, u32),
}
