// The operands of an expression in the order of their evaluation.
ghost use Rattle.std.specs.Prelude.{◌≡◌};
ghost use Rattle.operation.specs.Order.{steps_of};

use table::{Node, ops};

// The first to be evaluated stands first.
#[derive(Clone, Copy)]
pub enum Steps {
    Leaf,
    One(u32),
    Two(u32, u32),
    // What a let binds, and its body.
    Let(u32, u32),
    Three(u32, u32, u32),
}

// By the op of a record: none for an op without operands, and for a number that is no op.
#[tactic(auto, unfolding(crate::specs::Order::steps_of, crate::specs::Order::orders))]
pub fn steps_of(r: Node) -> Steps
    ensures { result ≡ steps_of r }
{
    match r.op {
        ops::LOAD => Steps::Two(r.b, r.a),
        ops::STORE => Steps::Three(r.c, r.b, r.a),
        ops::BINARY => Steps::Two(r.a, r.b),
        ops::UNARY => Steps::One(r.a),
        ops::CAST => Steps::One(r.a),
        ops::LET => Steps::Let(r.b, r.c),
        ops::ITE => Steps::Three(r.c, r.b, r.a),
        ops::EXTRACT => Steps::One(r.a),
        ops::CONCAT => Steps::Two(r.a, r.b),
        _ => Steps::Leaf,
    }
}
