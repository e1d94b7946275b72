// The entry: any table, state, log, count, next address and budget.
ghost use Rattle.std.specs.Prelude.{◌≡◌, ℕ};
ghost use Rattle.base.specs.Refusals.{refusal};
ghost use Rattle.running.specs.Result as Runs;
ghost use Rattle.starts.specs.Lent.{lent};
ghost use Rattle.runner.specs.Given.{Gives, refused_at};

use crate::Outcome;
use crate::accepted::run_accepted;
use base::{Answer, Refusal};
use running::Ending;
use starts::rules::starts_ok;
use verdict::accepted;

// "run makes 1 to 13 and 16 to 18": the first that comes, whatever the budget.
fn accepts(table: &[u8], state: &[u64], log: &[u64], count: u64, next: u64) -> Answer
    ensures { (budget : ℕ)
        → result ≡ refusal (Runs.run_rules (lent table.now state.now log.now count next budget)) }
{
    let read = accepted(table)?;
    starts_ok(&read.frame, state, log, count, next)
}

// "Codes 1 to 18 leave all buffers unchanged, ticks 0, log count and next address as given."
fn refused(refusal: Refusal, count: u64, next: u64) -> Outcome
    ensures { result ≡ refused_at refusal count next }
{
    Outcome {
        ending: Ending::Refused(refusal),
        ticks: 0,
        count,
        next,
    }
}

// A run of whatever is lent. A refusal leaves every buffer as it was.
pub fn run(
    table: &[u8],
    state: &mut [u64],
    log: &mut [u64],
    count: u64,
    next: u64,
    budget: u32,
) -> Outcome
    ensures { Gives (Runs.result (lent table.now state.old log.old count next budget)) result state.new log.new }
{
    match accepts(table, state, log, count, next) {
        Ok(()) => run_accepted(table, state, log, count, next, budget),
        Err(refusal) => refused(refusal, count, next),
    }
}
