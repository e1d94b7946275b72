// The type that a record gives to its expression, by its op and the types of its operands.
#![tactic(auto, unfolding(crate::specs::ByOp::leaf_type, crate::specs::ByOp::leaves, crate::specs::ByOp::one_type, crate::specs::ByOp::ones, crate::specs::ByOp::two_type, crate::specs::ByOp::twos, crate::specs::ByOp::three_type, crate::specs::ByOp::threes))]

ghost use Rattle.std.specs.Prelude.{◌≡◌, ◌+◌, ◌≤◌, ◌<◌, Some};
ghost use Rattle.table.specs.Decode as Decode;
ghost use Rattle.table.specs.Decode.{context};
ghost use Rattle.typing.specs.ByOp.{leaf_type, one_type, two_type, three_type};

use crate::ops;
use table::read::Frame;
use table::{Node, Variable};
use value::ValueType;

// The type that a variable's record names.
#[tactic(auto, unfolding(table::specs::Decode::declared_type))]
pub fn declared(v: Variable) -> ValueType
    ensures { result ≡ Decode.declared_type v }
{
    if v.kind == 1 {
        ValueType::Imm(v.width)
    } else {
        ValueType::Mem(v.addressWidth)
    }
}

// The type of variable x of a table whose frame holds.
#[tactic(auto, unfolding(table::specs::Decode::context))]
pub fn type_of(frame: &Frame, x: u32) -> ValueType
    requires x_lt_variables { x < frame.now.header.variables }
    ensures { result ≡ (context frame.now.bytes.now).type x }
{
    declared(frame.variable(x))
}

// The type that an unknown's record names.
#[tactic(auto, unfolding(table::specs::Decode::unknown_type))]
pub fn unknown(r: Node) -> ValueType
    ensures { result ≡ Decode.unknown_type r }
{
    if r.q == 0 {
        ValueType::Imm(r.p)
    } else {
        ValueType::Mem(r.q)
    }
}

// A record without operands.
pub fn leaf(frame: &Frame, r: Node) -> Option<ValueType>
    requires a_lt_variables { r.op ≡ 1 → r.a < frame.now.header.variables }
    ensures { result ≡ leaf_type (context frame.now.bytes.now) r }
{
    match r.op {
        table::ops::VAR => Some(type_of(frame, r.a)),
        table::ops::WORD => Some(ValueType::Imm(r.p)),
        table::ops::UNKNOWN => Some(unknown(r)),
        _ => None,
    }
}

// A record of one operand.
pub fn one(r: Node, e: ValueType) -> Option<ValueType>
    requires q_le_p { r.op ≡ 11 → r.q ≤ r.p }
    requires p_bound { r.op ≡ 11 → r.p ≤ r.q + 63 }
    ensures { result ≡ one_type r (Some e) }
{
    match r.op {
        table::ops::UNARY => ops::unary(e),
        table::ops::CAST => ops::cast(r.sub, r.p, e),
        table::ops::EXTRACT => ops::extract(r.p, r.q, e),
        _ => None,
    }
}

// A record of two operands.
pub fn two(frame: &Frame, r: Node, e: ValueType, f: ValueType) -> Option<ValueType>
    requires a_lt_variables { r.op ≡ 8 → r.a < frame.now.header.variables }
    ensures { result ≡ two_type (context frame.now.bytes.now) r (Some e) (Some f) }
{
    match r.op {
        table::ops::LOAD => ops::load(r.p, e, f),
        table::ops::BINARY => ops::binary(r.sub, e, f),
        table::ops::LET => ops::lets(type_of(frame, r.a), e, f),
        table::ops::CONCAT => ops::concat(e, f),
        _ => None,
    }
}

// A record of three operands.
pub fn three(r: Node, e: ValueType, f: ValueType, g: ValueType) -> Option<ValueType>
    ensures { result ≡ three_type r (Some e) (Some f) (Some g) }
{
    match r.op {
        table::ops::STORE => ops::store(r.p, e, f, g),
        table::ops::ITE => ops::ite(e, f, g),
        _ => None,
    }
}
