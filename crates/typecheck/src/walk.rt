// The judgement of types, the type of an expression, and the rule of a statement.
#![tactic(auto, using(typing::proofs::StrictLaws::one_none, typing::proofs::StrictLaws::two_first, typing::proofs::StrictLaws::two_second, typing::proofs::StrictLaws::three_first, typing::proofs::StrictLaws::three_second, typing::proofs::StrictLaws::three_third))]

ghost use Rattle.std.specs.Prelude.{◌≡◌, ◌+◌, ◌≤◌, ◌<◌};
ghost use Rattle.value.specs.declared.ValueType.TheVariants.{Imm};
ghost use Rattle.table.specs.Decode.{context, expr};
ghost use Rattle.typing.specs.Infer.{is_type, infer};
ghost use Rattle.typing.specs.ByOp.{leaf_type, one_type, two_type, three_type};
ghost use Rattle.typing.specs.Verdict.{statement_typed};
ghost use Rattle.typing.proofs.JudgedTypes.{types, asks_types};

use judging::{Judgement, judged};
use table::Node;
use table::read::{Frame, Table};
use typing::{by_op, ops};
use value::ValueType;

// The judgement of types. An expression has none where one of its operands has none, and what goes to a place has the place's type.
pub struct Types;

impl Judgement for Types {
    type Found = ValueType;

    ghost judge = { infer };

    ghost leaf = { leaf_type };

    ghost one = { one_type };

    ghost two = { two_type };

    ghost three = { three_type };

    ghost variable = { λ Γ x. Γ.type x };

    ghost jump = { Imm };

    ghost guard = { Imm 1 };

    ghost may_go = { is_type };

    ghost rule = { statement_typed };

    fn leaf(frame: &Frame, r: Node) -> Option<ValueType> {
        by_op::leaf(frame, r)
    }

    fn one(r: Node, e: Option<ValueType>) -> Option<ValueType>
        requires q_le_p { r.op ≡ 11 → r.q ≤ r.p }
        requires p_bound { r.op ≡ 11 → r.p ≤ r.q + 63 }
        ensures { result ≡ one_type r e }
    {
        by_op::one(r, e?)
    }

    fn two(frame: &Frame, r: Node, e: Option<ValueType>, f: Option<ValueType>) -> Option<ValueType>
        requires a_lt_variables { r.op ≡ 8 → r.a < frame.now.header.variables }
        ensures { result ≡ two_type (context frame.now.bytes.now) r e f }
    {
        by_op::two(frame, r, e?, f?)
    }

    fn three(
        r: Node,
        e: Option<ValueType>,
        f: Option<ValueType>,
        g: Option<ValueType>,
    ) -> Option<ValueType>
        ensures { result ≡ three_type r e f g }
    {
        by_op::three(r, e?, f?, g?)
    }

    fn variable(frame: &Frame, x: u32) -> ValueType {
        by_op::type_of(frame, x)
    }

    fn jump(width: u32) -> ValueType {
        ValueType::Imm(width)
    }

    fn guard() -> ValueType {
        ValueType::Imm(1)
    }

    fn may_go(place: ValueType, e: Option<ValueType>) -> bool
        ensures { result ≡ is_type place e }
    {
        ops::is_type(place, e)
    }

    ghost course = { types };

    ghost asks = { asks_types };
}

// The type of expression i.
pub fn type_at(table: &Table, i: u32) -> Option<ValueType>
    requires { i < table.now.frame.header.expressions }
    ensures { result ≡ infer (context table.now.frame.bytes.now) (expr table.now.frame.bytes.now i) }
{
    judged::<Types>(table, i)
}

// Whether statement i keeps the rule of types.
#[tactic(auto, using(judging::proofs::NamedLaws::loop_expression, crate::proofs::LoopLaws::loop_typed))]
pub(crate) fn keeps(table: &Table, i: u32) -> bool
    requires { i < table.now.frame.header.statements }
    ensures { result ≡ statement_typed table.now.frame.bytes.now i }
{
    judging::keeps::<Types>(table, i)
}
