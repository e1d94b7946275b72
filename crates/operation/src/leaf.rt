// Expressions without operands.
ghost use Rattle.std.specs.Prelude.{◌≡◌, ◌*◌, ◌≤◌, ◌<◌, [], length};
ghost use Rattle.table.specs.Bytes as Bytes;
ghost use Rattle.table.specs.Decode.{context};
ghost use Rattle.evaluation.specs.State.{in_state};
ghost use Rattle.evaluation.specs.Evaluation.{look, most_bindings};
ghost use Rattle.bindings.specs.Bound.{bindings_of};
ghost use Rattle.operation.specs.ByOp.{leaf_value, at_once};

use bindings::Bindings;
use table::read::Frame;
use table::{Node, bytes, ops};
use typing::by_op;
use value::{Value, ValueType};

// The value of a variable: what it is bound to, else what the state has.
#[tactic(auto, using(bindings::proofs::BoundLaws::look_found))]
fn variable(frame: &Frame, state: &[u64], bindings: &Bindings, x: u32) -> Value
    requires variables_in_bounds { 2 * frame.now.header.variables ≤ length state.now }
    requires count_le_most_bindings { bindings.now.count ≤ most_bindings }
    requires x_lt_variables { x < frame.now.header.variables }
    ensures { result ≡ look (bindings_of bindings.now) (in_state state.now ((context frame.now.bytes.now).type x) x) x }
{
    match bindings.find(x) {
        Some(v) => v,
        None => states::read(state, by_op::type_of(frame, x), x),
    }
}

// By a record's op: nothing as yet for one that has operands, and for a number that is no op.
#[tactic(auto, unfolding(crate::specs::ByOp::at_once, crate::specs::ByOp::leaves))]
fn of_record(frame: &Frame, state: &[u64], bindings: &Bindings, r: Node) -> Option<Value>
    requires variables_in_bounds { 2 * frame.now.header.variables ≤ length state.now }
    requires count_le_most_bindings { bindings.now.count ≤ most_bindings }
    requires a_lt_variables { r.op ≡ 1 → r.a < frame.now.header.variables }
    ensures { result ≡ at_once (context frame.now.bytes.now) state.now r (bindings_of bindings.now) }
{
    match r.op {
        ops::VAR => Some(variable(frame, state, bindings, r.a)),
        ops::WORD => Some(Value::Word(r.p, bytes::word_value(r))),
        ops::UNKNOWN => Some(Value::Unknown(by_op::unknown(r))),
        _ => None,
    }
}

// The value of a record without operands: unknown for one that has some.
#[tactic(auto, unfolding(crate::specs::ByOp::leaf_value))]
pub fn leaf(frame: &Frame, state: &[u64], bindings: &Bindings, r: Node) -> Value
    requires variables_in_bounds { 2 * frame.now.header.variables ≤ length state.now }
    requires count_le_most_bindings { bindings.now.count ≤ most_bindings }
    requires a_lt_variables { r.op ≡ 1 → r.a < frame.now.header.variables }
    ensures { result ≡ leaf_value (context frame.now.bytes.now) state.now r (bindings_of bindings.now) }
{
    of_record(frame, state, bindings, r).unwrap_or(Value::Unknown(ValueType::Imm(1)))
}

// What expression i gives before any operand is evaluated: its value, or nothing as yet, since it has operands.
pub fn at_once(frame: &Frame, state: &[u64], bindings: &Bindings, i: u32) -> Option<Value>
    requires variables_in_bounds { 2 * frame.now.header.variables ≤ length state.now }
    requires count_le_most_bindings { bindings.now.count ≤ most_bindings }
    requires i_lt_expressions { i < frame.now.header.expressions }
    requires i_bound { (Bytes.expression frame.now.bytes.now i).op ≡ 1 → (Bytes.expression frame.now.bytes.now i).a < frame.now.header.variables }
    ensures { result ≡ at_once (context frame.now.bytes.now) state.now (Bytes.expression frame.now.bytes.now i) (bindings_of bindings.now) }
{
    of_record(frame, state, bindings, frame.expression(i))
}

// The same where no binding is in force.
#[tactic(auto, unfolding(crate::specs::ByOp::at_once, crate::specs::ByOp::leaves))]
pub fn unbound(frame: &Frame, state: &[u64], i: u32) -> Option<Value>
    requires variables_in_bounds { 2 * frame.now.header.variables ≤ length state.now }
    requires i_lt_expressions { i < frame.now.header.expressions }
    requires i_bound { (Bytes.expression frame.now.bytes.now i).op ≡ 1 → (Bytes.expression frame.now.bytes.now i).a < frame.now.header.variables }
    ensures { result ≡ at_once (context frame.now.bytes.now) state.now (Bytes.expression frame.now.bytes.now i) [] }
{
    let r = frame.expression(i);
    match r.op {
        ops::VAR => Some(states::read(state, by_op::type_of(frame, r.a), r.a)),
        ops::WORD => Some(Value::Word(r.p, bytes::word_value(r))),
        ops::UNKNOWN => Some(Value::Unknown(by_op::unknown(r))),
        _ => None,
    }
}
