// The run of an accepted table from an accepted start: nothing is looked at twice.
ghost use Rattle.std.specs.Prelude.{ℕ};
ghost use Rattle.running.specs.Result.{Accepts, ran};
ghost use Rattle.starts.specs.Lent.{lent};
ghost use Rattle.runner.specs.Given.{Gives};

use crate::Outcome;
use effect::Machine;
use execute::turns::block;
use memory::LogBuffer;
use running::Ending;
use table::bytes::header;
use table::read::{Frame, Table};

// How the run ends. What it leaves, at a stop too, is an accepted start again, for every budget.
pub fn run_accepted(
    table: &[u8],
    state: &mut [u64],
    log: &mut [u64],
    count: u64,
    next: u64,
    budget: u32,
) -> Outcome
    requires { Accepts (lent table.now state.old log.old count next budget) }
    ensures gives { Gives (ran (lent table.now state.old log.old count next budget)) result state.new log.new }
    ensures by_index { (again : ℕ) → Accepts (lent table.now state.new log.new result.count result.next again) }
{
    let mut buffer = LogBuffer {
        numbers: log,
        count: count as usize,
    };
    let mut machine = Machine {
        state,
        log: &mut buffer,
        ticks: budget,
        next,
    };
    let frame = Frame {
        bytes: table,
        header: header(table),
    };
    let ending = match block(&Table { frame }, &mut machine, 0, frame.header.statements) {
        Ok(()) => Ending::Done,
        Err(halt) => Ending::Stopped(halt.code, halt.statement),
    };
    Outcome {
        ending,
        ticks: budget - machine.ticks,
        count: machine.log.count as u64,
        next: machine.next,
    }
}
