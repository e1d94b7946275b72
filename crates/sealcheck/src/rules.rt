// Refusals 14 and 15.
ghost use Rattle.std.specs.Prelude.{◌≡◌, [], ◌∷◌};
ghost use Rattle.base.specs.Refusals.{Accepted, refusal};
ghost use Rattle.forest.specs.Forest.{use_rule};
ghost use Rattle.sealing.specs.Verdict.{expression_seal_rule, seal_rules};

use crate::walk::{Seals, label_at};
use base::codes::Code;
use base::{Answer, first_fault, or_refused};
use judging::keeps;
use table::read::Table;

// Refusal 14 at the lowest expression that leaks.
fn lowest_leak(table: &Table) -> Answer
    ensures { result ≡ refusal (expression_seal_rule table.now.frame.bytes.now ∷ []) }
{
    first_fault(
        Code::ExpressionSeal,
        table.frame.header.expressions,
        |i| label_at(table, i).is_some(),
    )
}

// The first of refusals 14 and 15 that comes: 14 is looked for where a statement breaks its rule, and comes before 15.
pub fn seals_ok(table: &Table) -> Answer
    requires { refusal (use_rule table.now.frame.bytes.now ∷ []) ≡ Accepted }
    ensures { result ≡ refusal (seal_rules table.now.frame.bytes.now) }
{
    for i in 0..table.frame.header.statements {
        if !keeps::<Seals>(table, i) {
            return or_refused(lowest_leak(table), Code::StatementSeal, i);
        }
    }
    Ok(())
}
