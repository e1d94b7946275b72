// The judgement of labels, and the label of an expression.
ghost use Rattle.std.specs.Prelude.{◌≡◌, ◌+◌, ◌≤◌, ◌<◌, false};
ghost use Rattle.table.specs.Decode.{context, expr};
ghost use Rattle.sealing.specs.Labels.{may_go, label_of};
ghost use Rattle.sealing.specs.ByOp.{leaf_label, two_label, three_label};
ghost use Rattle.sealing.specs.Verdict.{statement_clean};
ghost use Rattle.sealing.proofs.JudgedLabels.{labels, asks_labels};

use judging::{Judgement, judged};
use sealing::{Label, by_op, ops};
use table::Node;
use table::read::{Frame, Table};

// The judgement of labels. A place is sealed or open: a variable takes what is sealed if it is, a jump and a guard never.
pub struct Seals;

impl Judgement for Seals {
    type Found = bool;

    ghost judge = { label_of };

    ghost leaf = { leaf_label };

    ghost one = { λ r l. l };

    ghost two = { two_label };

    ghost three = { three_label };

    ghost variable = { λ Γ x. Γ.sealed x };

    ghost jump = { λ A. false };

    ghost guard = { false };

    ghost may_go = { may_go };

    ghost rule = { statement_clean };

    fn leaf(frame: &Frame, r: Node) -> Label {
        by_op::leaf(frame, r)
    }

    fn one(_r: Node, e: Label) -> Label
        ensures { result ≡ e }
    {
        e
    }

    fn two(frame: &Frame, r: Node, e: Label, f: Label) -> Label
        requires a_lt_variables { r.op ≡ 8 → r.a < frame.now.header.variables }
        ensures { result ≡ two_label (context frame.now.bytes.now) r e f }
    {
        by_op::two(frame, r, e, f)
    }

    fn three(r: Node, e: Label, f: Label, g: Label) -> Label
        ensures { result ≡ three_label r e f g }
    {
        by_op::three(r, e, f, g)
    }

    fn variable(frame: &Frame, x: u32) -> bool {
        by_op::is_sealed(frame, x)
    }

    fn jump(_width: u32) -> bool {
        Self::guard()
    }

    fn guard() -> bool {
        false
    }

    fn may_go(place: bool, e: Label) -> bool
        ensures { result ≡ may_go place e }
    {
        ops::may_go(place, e)
    }

    ghost course = { labels };

    ghost asks = { asks_labels };
}

// The label of expression i.
pub fn label_at(table: &Table, i: u32) -> Label
    requires { i < table.now.frame.header.expressions }
    ensures { result ≡ label_of (context table.now.frame.bytes.now) (expr table.now.frame.bytes.now i) }
{
    judged::<Seals>(table, i)
}
