// A judgement finds something of each expression, a type or a label, or nothing where its rules are broken. The walk from an expression down, and
// the test of a statement, are the same for each.
#![tactic(auto)]

ghost use Rattle.std.specs.Prelude.{◌≡◌, ◌+◌, ◌≤◌, ◌<◌, Bool, List, ℕ, Option, None};
ghost use Rattle.table.specs.Bytes as Bytes;
ghost use Rattle.table.specs.declared.Node.{Node};
ghost use Rattle.table.specs.Decode.{Context, context, expr};
ghost use Rattle.table.specs.Syntax.{Expr};
ghost use Rattle.judging.specs.Judging.{Course, Asks};

use forest::operands;
use forest::operands::Operands;
use table::read::{Frame, Table};
use table::{Node, ops};

pub trait Judgement {
    // What is found of an expression.
    type Found: Copy;

    // What the rules find of an expression, and what a record makes of what its operands have, by how many they are.
    ghost judge: { Context → Expr → Option Self.Found };

    ghost leaf: { Context → Node → Option Self.Found };

    ghost one: { Node → Option Self.Found → Option Self.Found };

    ghost two: { Context → Node → Option Self.Found → Option Self.Found → Option Self.Found };

    ghost three: { Node → Option Self.Found → Option Self.Found → Option Self.Found → Option Self.Found };

    // The place of a variable, of a jump by the table's address width, and of a guard; and whether what was found may go to a place.
    ghost variable: { Context → ℕ → Self.Found };

    ghost jump: { ℕ → Self.Found };

    ghost guard: { Self.Found };

    ghost may_go: { Self.Found → Option Self.Found → Bool };

    // The rule of statements.
    ghost rule: { List ℕ → ℕ → Bool };

    // What a record without operands has.
    fn leaf(frame: &Frame, r: Node) -> Option<Self::Found>
        requires a_lt_variables { r.op ≡ 1 → r.a < frame.now.header.variables }
        ensures { result ≡ leaf (context frame.now.bytes.now) r };

    // What a record of one operand makes of what that has.
    fn one(r: Node, e: Option<Self::Found>) -> Option<Self::Found>
        requires q_le_p { r.op ≡ 11 → r.q ≤ r.p }
        requires p_bound { r.op ≡ 11 → r.p ≤ r.q + 63 }
        ensures { result ≡ one r e };

    // Of two.
    fn two(
        frame: &Frame,
        r: Node,
        e: Option<Self::Found>,
        f: Option<Self::Found>,
    ) -> Option<Self::Found>
        requires a_lt_variables { r.op ≡ 8 → r.a < frame.now.header.variables }
        ensures { result ≡ two (context frame.now.bytes.now) r e f };

    // Of three.
    fn three(
        r: Node,
        e: Option<Self::Found>,
        f: Option<Self::Found>,
        g: Option<Self::Found>,
    ) -> Option<Self::Found>
        ensures { result ≡ three r e f g };

    // The place that variable x is to what is moved there.
    fn variable(frame: &Frame, x: u32) -> Self::Found
        requires x_lt_variables { x < frame.now.header.variables }
        ensures { result ≡ variable (context frame.now.bytes.now) x };

    // The place of a jump.
    fn jump(width: u32) -> Self::Found
        ensures { result ≡ jump width };

    // The place of a guard.
    fn guard() -> Self::Found
        ensures { result ≡ guard };

    // Whether what was found may go to a place.
    fn may_go(place: Self::Found, e: Option<Self::Found>) -> bool
        ensures { result ≡ may_go place e };

    // What each expression has is what its record makes of what its operands have.
    ghost course: { (s : List ℕ) → Course s (record { leaf = leaf (context s); one = one; two = two (context s); three = three; more = None }) (λ k. judge (context s) (expr s k)) };

    // A statement keeps the rule where what it names may go to its place.
    ghost asks: { (s : List ℕ) → Asks s (rule s) may_go (λ k. judge (context s) (expr s k)) (variable (context s)) (jump (Bytes.header s).width) guard };
}

// What expression i has, by recursion on its operands, whose numbers are lower. It goes no deeper than the table does.
#[tactic(auto, using(crate::proofs::WalkLaws::leaf_variable, crate::proofs::WalkLaws::let_variable, crate::proofs::WalkLaws::bits_down, crate::proofs::WalkLaws::bits_few))]
pub fn judged<J: Judgement>(table: &Table, i: u32) -> Option<J::Found>
    requires { i < table.now.frame.header.expressions }
    ensures { result ≡ J.judge (context table.now.frame.bytes.now) (expr table.now.frame.bytes.now i) }
{
    let frame = &table.frame;
    let r = frame.expression(i);
    match operands::of_expression(r) {
        Operands::Leaf => J::leaf(frame, r),
        Operands::One(a) => J::one(r, judged::<J>(table, a)),
        Operands::Two(a, b) => J::two(frame, r, judged::<J>(table, a), judged::<J>(table, b)),
        Operands::Three(a, b, c) => J::three(
            r,
            judged::<J>(table, a),
            judged::<J>(table, b),
            judged::<J>(table, c),
        ),
    }
}

// Whether statement i keeps its rule.
#[tactic(auto, using(crate::proofs::NamedLaws::move_variable, crate::proofs::NamedLaws::move_expression, crate::proofs::NamedLaws::jump_expression, crate::proofs::NamedLaws::loop_expression, crate::proofs::NamedLaws::branch_expression))]
pub fn keeps<J: Judgement>(table: &Table, i: u32) -> bool
    requires { i < table.now.frame.header.statements }
    ensures { result ≡ J.rule table.now.frame.bytes.now i }
{
    let frame = &table.frame;
    let r = frame.statement(i);
    match r.op {
        ops::MOVE => J::may_go(J::variable(frame, r.a), judged::<J>(table, r.b)),
        ops::JMP => J::may_go(J::jump(frame.header.width), judged::<J>(table, r.a)),
        ops::WHILE | ops::IF => J::may_go(J::guard(), judged::<J>(table, r.a)),
        _ => true,
    }
}
