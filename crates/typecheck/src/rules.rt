// Refusals 12 and 13.
ghost use Rattle.std.specs.Prelude.{◌≡◌, [], ◌∷◌};
ghost use Rattle.base.specs.Refusals.{Accepted, refusal};
ghost use Rattle.forest.specs.Forest.{use_rule};
ghost use Rattle.typing.specs.Verdict.{expression_type_rule, type_rules};

use crate::walk::{keeps, type_at};
use base::codes::Code;
use base::{Answer, first_fault, or_refused};
use table::read::Table;

// Refusal 12 at the lowest expression without a type.
fn lowest_untyped(table: &Table) -> Answer
    ensures { result ≡ refusal (expression_type_rule table.now.frame.bytes.now ∷ []) }
{
    first_fault(
        Code::ExpressionType,
        table.frame.header.expressions,
        |i| type_at(table, i).is_some(),
    )
}

// The first of refusals 12 and 13 that comes: 12 is looked for where a statement breaks its rule, and comes before 13.
pub fn types_ok(table: &Table) -> Answer
    requires { refusal (use_rule table.now.frame.bytes.now ∷ []) ≡ Accepted }
    ensures { result ≡ refusal (type_rules table.now.frame.bytes.now) }
{
    for i in 0..table.frame.header.statements {
        if !keeps(table, i) {
            return or_refused(lowest_untyped(table), Code::StatementType, i);
        }
    }
    Ok(())
}
