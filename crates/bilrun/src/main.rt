// bilrun: reads a table from standard input (its first 65,536 bytes), checks it and, where it is accepted, runs it with all variables
// absent, an empty log of 2,048 entries, next address 0 and 10,000 ticks. It prints `verdict CODE PLACE` and, where that is 0,
// `seal CODE PLACE`, `run CODE PLACE TICKS LOG NEXT` and a line `var N ..` for each state variable.
//
// The text is made whole, in a buffer, by functions whose promise is its bytes; `main` only reads and writes. Where standard input can't be
// read there are no bytes, which is refusal 1.
#![tactic(auto)]

ghost use Rattle.std.specs.Prelude.{◌+◌, ◌*◌, ◌≤◌, ◌≡◌, length, replicate};
ghost use Rattle.base.specs.Refusals.{Accepted};
ghost use Rattle.typing.specs.Verdict as Typing;
ghost use Rattle.memory.specs.Log.{entry_size};
ghost use Rattle.running.specs.Result as Runs;
ghost use Rattle.report.specs.Placed.{Puts};
ghost use Rattle.bilrun.specs.Report as Report;
ghost use Rattle.bilrun.specs.Report.{started, entries, longest_ran, longest_accepted, longest_report};

use base::{code_of, place_of};
use memory::ENTRY_SIZE;
use report::lines::{answer_line, run_line, variable_lines};
use report::text::Text;
use runner::entry::run;
use table::framing::MOST_VARIABLES;
use table::read::Frame;
use verdict::seal_check;

// The numbers of standard input and output, for the kit's `io`: std's streams assume one contract of the system more, `rattle_errno`.
const STANDARD_INPUT: i32 = 0;

const STANDARD_OUTPUT: i32 = 1;

// "an empty log of 2,048 entries"
const ENTRIES: usize = 2048;

// "budget 10,000"
const BUDGET: u32 = 10000;

// Bytes for a text, more than the longest has.
const ROOM: usize = 16384;

// The run of an accepted table, in lines: how it ended, and the state variables.
fn ran(out: &mut Text<'_>, frame: &Frame, state: &mut [u64], log: &mut [u64])
    requires state_value { state.old ≡ replicate (2 * frame.now.header.variables) 0 }
    requires log_value { log.old ≡ replicate (entry_size * entries) 0 }
    requires room { out.old.end + longest_ran ≤ length out.old.buffer.now }
    ensures { Puts longest_ran out.old (Report.ran frame.now.bytes.now (Runs.result (started frame.now.bytes.now))) out.new }
{
    let o = run(frame.bytes, state, log, 0, 0, BUDGET);
    let ending = o.ending;
    run_line(
        out,
        runner::numbers::code_of(ending),
        runner::numbers::place_of(ending),
        o.ticks,
        o.count,
        o.next,
    );
    variable_lines(out, frame, state);
}

// What is said of an accepted table: the seal check and the run.
fn accepted(out: &mut Text<'_>, frame: &Frame)
    requires table_value { Typing.check frame.now.bytes.now ≡ Accepted }
    requires room { out.old.end + longest_accepted ≤ length out.old.buffer.now }
    ensures { Puts longest_accepted out.old (Report.accepted frame.now.bytes.now) out.new }
{
    let seal = seal_check(frame.bytes);
    answer_line(out, b"seal", code_of(seal), place_of(seal));
    let mut state = [0u64; 2 * MOST_VARIABLES as usize];
    let mut log = [0u64; ENTRY_SIZE * ENTRIES];
    let size = 2 * (frame.header.variables as usize);
    ran(out, frame, &mut state[..size], &mut log[..]);
}

// The whole text for a table, whatever its bytes.
fn report(out: &mut Text<'_>, table: &[u8])
    requires { out.old.end + longest_report ≤ length out.old.buffer.now }
    ensures { Puts longest_report out.old (Report.report table.now) out.new }
{
    match verdict::accepted(table) {
        Ok(read) => {
            answer_line(out, b"verdict", 0, 0);
            accepted(out, &read.frame);
        }
        Err(refusal) => answer_line(out, b"verdict", refusal.code.number(), refusal.place),
    }
}

fn main() {
    let mut input = io::large_buffer();
    let n = io::read_full(STANDARD_INPUT, &mut input);
    let mut buffer = [0u8; ROOM];
    let mut text = Text {
        buffer: &mut buffer,
        end: 0,
    };
    report(&mut text, &input[..n]);
    let Text { buffer, end } = text;
    io::write_all(STANDARD_OUTPUT, &buffer[..end]);
}
