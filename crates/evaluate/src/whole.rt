// The value of a whole expression, as a statement has it: no binding is in force, so none travels until the walk comes to a let, which
// hands its body the first.
ghost use Rattle.std.specs.Prelude.{◌<◌};
ghost use Rattle.value.specs.Values.{size, type_of};
ghost use Rattle.table.specs.Bytes as Bytes;
ghost use Rattle.table.specs.Decode.{context, expr};
ghost use Rattle.memory.specs.Buffer.{held, room_of};
ghost use Rattle.evaluation.specs.Evaluation as Evaluation;
ghost use Rattle.bindings.specs.Bound.{bindings_of, none, more};
ghost use Rattle.operation.specs.Outcome.{Leaves};
ghost use Rattle.evaluate.specs.Ready.{Ready};

use crate::walk::eval;
use base::codes::Stop;
use bindings::Bindings;
use memory::LogBuffer;
use operation::after;
use operation::leaf::unbound;
use operation::order::{Steps, steps_of};
use table::read::Table;
use value::{Value, ValueType};

#[cycle(whole_step)]
pub fn whole(table: &Table, state: &[u64], log: &mut LogBuffer, i: u32) -> Result<Value, Stop>
    requires ready { Ready table.now.frame.bytes.now state.now log.old none }
    requires i_bound { i < (Bytes.header table.now.frame.bytes.now).expressions }
    ensures { Leaves log.old (Evaluation.eval (context table.now.frame.bytes.now) (room_of log.old) state.now (expr table.now.frame.bytes.now i) (bindings_of none) (held log.old)) result log.new }
{
    match unbound(&table.frame, state, i) {
        Some(v) => Ok(v),
        None => step(table, state, log, i),
    }
}

// An expression with operands. It is a function of its own, since a call zeroes the room of its locals, and one without operands needs none.
#[cycle(whole_step)]
#[inline(never)]
fn step(table: &Table, state: &[u64], log: &mut LogBuffer, i: u32) -> Result<Value, Stop>
    requires ready { Ready table.now.frame.bytes.now state.now log.old none }
    requires i_bound { i < (Bytes.header table.now.frame.bytes.now).expressions }
    ensures { Leaves log.old (Evaluation.eval (context table.now.frame.bytes.now) (room_of log.old) state.now (expr table.now.frame.bytes.now i) (bindings_of none) (held log.old)) result log.new }
{
    let r = table.frame.expression(i);
    match steps_of(r) {
        Steps::Leaf => Ok(unbound(&table.frame, state, i).unwrap_or(Value::Unknown(ValueType::Imm(
            1,
        )))),
        Steps::One(a) => {
            let e = whole(table, state, log, a);
            after::one(r, e)
        }
        Steps::Two(a, b) => {
            let x = whole(table, state, log, a)?;
            let e = whole(table, state, log, b);
            after::two(log, r, x, e)
        }
        Steps::Let(a, b) => {
            let x = whole(table, state, log, a)?;
            first(table, state, log, r.a, x, b)
        }
        Steps::Three(a, b, c) => {
            let x = whole(table, state, log, a)?;
            let y = whole(table, state, log, b)?;
            let e = whole(table, state, log, c);
            after::three(log, r, x, y, e)
        }
    }
}

// The body of a let that stands in no other's, under its binding alone. Its locals are the bindings.
#[inline(never)]
fn first(
    table: &Table,
    state: &[u64],
    log: &mut LogBuffer,
    x: u32,
    v: Value,
    i: u32,
) -> Result<Value, Stop>
    requires ready { Ready table.now.frame.bytes.now state.now log.old (more none x v) }
    requires x_bound { x < 256 }
    requires v_bound { size (type_of v) < 256 }
    requires i_bound { i < (Bytes.header table.now.frame.bytes.now).expressions }
    ensures { Leaves log.old (Evaluation.eval (context table.now.frame.bytes.now) (room_of log.old) state.now (expr table.now.frame.bytes.now i) (bindings_of (more none x v)) (held log.old)) result log.new }
{
    eval(table, state, log, Bindings::none().with(x, v), i)
}
