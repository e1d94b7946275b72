// The label that a record gives to its expression, by its op and the labels of its operands. A record of one operand has the operand's.
#![tactic(auto, unfolding(crate::specs::ByOp::leaf_label, crate::specs::ByOp::leaves, crate::specs::ByOp::two_label, crate::specs::ByOp::twos, crate::specs::ByOp::three_label, crate::specs::ByOp::threes))]

ghost use Rattle.std.specs.Prelude.{◌≡◌, ◌<◌};
ghost use Rattle.table.specs.Decode.{context};
ghost use Rattle.sealing.specs.ByOp.{leaf_label, two_label, three_label};

use crate::{Label, ops};
use table::Node;
use table::read::Frame;

// Is variable x of a table whose frame holds sealed?
#[tactic(auto, unfolding(table::specs::Decode::context))]
pub fn is_sealed(frame: &Frame, x: u32) -> bool
    requires x_lt_variables { x < frame.now.header.variables }
    ensures { result ≡ (context frame.now.bytes.now).sealed x }
{
    frame.variable(x).label == 1
}

// A record without operands.
pub fn leaf(frame: &Frame, r: Node) -> Label
    requires a_lt_variables { r.op ≡ 1 → r.a < frame.now.header.variables }
    ensures { result ≡ leaf_label (context frame.now.bytes.now) r }
{
    match r.op {
        table::ops::VAR => Some(is_sealed(frame, r.a)),
        _ => Some(false),
    }
}

// A record of two operands.
pub fn two(frame: &Frame, r: Node, e: Label, f: Label) -> Label
    requires a_lt_variables { r.op ≡ 8 → r.a < frame.now.header.variables }
    ensures { result ≡ two_label (context frame.now.bytes.now) r e f }
{
    match r.op {
        table::ops::LOAD => ops::load(e, f),
        table::ops::LET => ops::lets(is_sealed(frame, r.a), e, f),
        _ => ops::either(e, f),
    }
}

// A record of three operands.
pub fn three(r: Node, e: Label, f: Label, g: Label) -> Label
    ensures { result ≡ three_label r e f g }
{
    match r.op {
        table::ops::STORE => ops::store(e, f, g),
        _ => ops::either(e, ops::either(f, g)),
    }
}
