// The value of an expression by recursion on its operands, whose numbers are lower, in paper 01's order. It goes no deeper than the
// table does: 64 expressions. Where an operand stops, that is the expression's own outcome.
//
// A call zeroes the room of its locals, so no step makes bindings among its own: `operand` copies them for `eval` where it goes down, and
// `inside` makes one more.
ghost use Rattle.std.specs.Prelude.{◌<◌};
ghost use Rattle.value.specs.Values.{size, type_of};
ghost use Rattle.table.specs.Bytes as Bytes;
ghost use Rattle.table.specs.Decode.{context, expr};
ghost use Rattle.memory.specs.Buffer.{held, room_of};
ghost use Rattle.evaluation.specs.Evaluation as Evaluation;
ghost use Rattle.evaluation.specs.Evaluation.{most_bindings};
ghost use Rattle.bindings.specs.Bound.{bindings_of, more};
ghost use Rattle.operation.specs.Outcome.{Leaves};
ghost use Rattle.evaluate.specs.Ready.{Ready};

use base::codes::Stop;
use bindings::Bindings;
use memory::LogBuffer;
use operation::after;
use operation::leaf::{at_once, leaf};
use operation::order::{Steps, steps_of};
use table::read::Table;
use value::Value;

// "At most 64 bindings in force travel with the walk"
const MOST_BINDINGS: usize = 64;

#[cycle(eval_operand)]
#[inline(always)]
pub fn eval(
    table: &Table,
    state: &[u64],
    log: &mut LogBuffer,
    bindings: Bindings,
    i: u32,
) -> Result<Value, Stop>
    requires ready { Ready table.now.frame.bytes.now state.now log.old bindings }
    requires i_bound { i < (Bytes.header table.now.frame.bytes.now).expressions }
    ensures { Leaves log.old (Evaluation.eval (context table.now.frame.bytes.now) (room_of log.old) state.now (expr table.now.frame.bytes.now i) (bindings_of bindings) (held log.old)) result log.new }
{
    under(table, state, log, &bindings, i)
}

// An expression under the bindings that `eval` was handed.
#[cycle(eval_operand)]
fn under(
    table: &Table,
    state: &[u64],
    log: &mut LogBuffer,
    bindings: &Bindings,
    i: u32,
) -> Result<Value, Stop>
    requires ready { Ready table.now.frame.bytes.now state.now log.old bindings.now }
    requires i_bound { i < (Bytes.header table.now.frame.bytes.now).expressions }
    ensures { Leaves log.old (Evaluation.eval (context table.now.frame.bytes.now) (room_of log.old) state.now (expr table.now.frame.bytes.now i) (bindings_of bindings.now) (held log.old)) result log.new }
{
    let r = table.frame.expression(i);
    match steps_of(r) {
        Steps::Leaf => Ok(leaf(&table.frame, state, bindings, r)),
        Steps::One(a) => {
            let e = operand(table, state, log, bindings, a);
            after::one(r, e)
        }
        Steps::Two(a, b) => {
            let x = operand(table, state, log, bindings, a)?;
            let e = operand(table, state, log, bindings, b);
            after::two(log, r, x, e)
        }
        Steps::Let(a, b) => {
            let x = operand(table, state, log, bindings, a)?;
            if MOST_BINDINGS <= bindings.count {
                return Err(Stop::TooManyBindings);
            }
            inside(table, state, log, bindings, r.a, x, b)
        }
        Steps::Three(a, b, c) => {
            let x = operand(table, state, log, bindings, a)?;
            let y = operand(table, state, log, bindings, b)?;
            let e = operand(table, state, log, bindings, c);
            after::three(log, r, x, y, e)
        }
    }
}

// An operand's value. The walk is handed the bindings by value, so an operand that has no operands itself is evaluated at once.
#[cycle(eval_operand)]
pub fn operand(
    table: &Table,
    state: &[u64],
    log: &mut LogBuffer,
    bindings: &Bindings,
    i: u32,
) -> Result<Value, Stop>
    requires ready { Ready table.now.frame.bytes.now state.now log.old bindings.now }
    requires i_bound { i < (Bytes.header table.now.frame.bytes.now).expressions }
    ensures { Leaves log.old (Evaluation.eval (context table.now.frame.bytes.now) (room_of log.old) state.now (expr table.now.frame.bytes.now i) (bindings_of bindings.now) (held log.old)) result log.new }
{
    match at_once(&table.frame, state, bindings, i) {
        Some(v) => Ok(v),
        None => eval(table, state, log, *bindings, i),
    }
}

// A let's body, under one binding more.
#[cycle(eval_operand)]
#[inline(never)]
fn inside(
    table: &Table,
    state: &[u64],
    log: &mut LogBuffer,
    bindings: &Bindings,
    x: u32,
    v: Value,
    i: u32,
) -> Result<Value, Stop>
    requires ready { Ready table.now.frame.bytes.now state.now log.old (more bindings.now x v) }
    requires few { bindings.now.count < most_bindings }
    requires x_bound { x < 256 }
    requires v_bound { size (type_of v) < 256 }
    requires i_bound { i < (Bytes.header table.now.frame.bytes.now).expressions }
    ensures { Leaves log.old (Evaluation.eval (context table.now.frame.bytes.now) (room_of log.old) state.now (expr table.now.frame.bytes.now i) (bindings_of (more bindings.now x v)) (held log.old)) result log.new }
{
    eval(table, state, log, bindings.with(x, v), i)
}
