// The lines, each put behind a text.
ghost use Rattle.std.specs.Prelude.{◌+◌, ◌*◌, ◌≤◌, ◌<◌, ◌≡◌, length};
ghost use Rattle.report.specs.Lines.{answer_line, run_line, longest_answer, longest_run, longest_variable};
ghost use Rattle.report.specs.Lines as Lines;
ghost use Rattle.report.specs.Placed.{Puts};

use crate::text::Text;
use table::ROLE_STATE;
use table::read::Frame;

// `verdict CODE PLACE` or `seal CODE PLACE`, the word being given.
pub fn answer_line(out: &mut Text<'_>, word: &[u8], code: u32, place: u32)
    requires word_len_bound { length word.now ≤ 7 }
    requires room { out.old.end + longest_answer ≤ length out.old.buffer.now }
    ensures { Puts longest_answer out.old (answer_line word.now code place) out.new }
{
    out.add(word);
    out.field(code as u64);
    out.field(place as u64);
    out.add(b"\n");
}

// `run CODE PLACE TICKS LOG NEXT`.
pub fn run_line(out: &mut Text<'_>, code: u32, place: u32, ticks: u32, count: u64, next: u64)
    requires { out.old.end + longest_run ≤ length out.old.buffer.now }
    ensures { Puts longest_run out.old (run_line code place ticks count next) out.new }
{
    out.add(b"run");
    out.field(code as u64);
    out.field(place as u64);
    out.field(ticks as u64);
    out.field(count);
    out.field(next);
    out.add(b"\n");
}

// What a variable's pair says: a word, unknown, a memory, or absent for any other kind. The kinds are the numbers in which C lends a state.
fn content(out: &mut Text<'_>, kind: u64, n: u64)
    requires { out.old.end + 28 ≤ length out.old.buffer.now }
    ensures { Puts 28 out.old (Lines.content kind n) out.new }
{
    match kind {
        1 => {
            out.add(b" word");
            out.field(n);
        }
        2 => out.add(b" unknown"),
        3 => {
            out.add(b" memory");
            out.field(n);
        }
        _ => out.add(b" absent"),
    }
}

// `var N` with what its pair says.
fn variable_line(out: &mut Text<'_>, x: u64, kind: u64, n: u64)
    requires { out.old.end + longest_variable ≤ length out.old.buffer.now }
    ensures { Puts longest_variable out.old (Lines.variable_line x kind n) out.new }
{
    out.add(b"var");
    out.field(x);
    content(out, kind, n);
    out.add(b"\n");
}

// The line of variable x of a table. A let variable has none.
#[tactic(auto, using(crate::proofs::RoleLaws::let_line, crate::proofs::RoleLaws::state_line))]
fn line_of(out: &mut Text<'_>, frame: &Frame, state: &[u64], x: u32)
    requires x_lt_variables { x < frame.now.header.variables }
    requires state_len { length state.now ≡ 2 * frame.now.header.variables }
    requires room { out.old.end + longest_variable ≤ length out.old.buffer.now }
    ensures { Puts longest_variable out.old (Lines.line_of frame.now.bytes.now state.now x) out.new }
{
    let v = frame.variable(x);
    if v.role == ROLE_STATE {
        let at = 2 * (x as usize);
        variable_line(out, x as u64, state[at], state[at + 1]);
    }
}

// The lines of all state variables of a table.
pub fn variable_lines(out: &mut Text<'_>, frame: &Frame, state: &[u64])
    requires state_len { length state.now ≡ 2 * frame.now.header.variables }
    requires room { out.old.end + longest_variable * frame.now.header.variables ≤ length out.old.buffer.now }
    ensures { Puts (longest_variable * frame.now.header.variables) out.old
        (Lines.variable_lines frame.now.bytes.now state.now frame.now.header.variables) out.new }
{
    for x in 0..frame.header.variables {
        line_of(out, frame, state, x);
    }
}
