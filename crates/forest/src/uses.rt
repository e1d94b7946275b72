// Refusal 8: "Every expression is used exactly once, by an expression or a statement."
ghost use Rattle.std.specs.Prelude.{◌≡◌, [], ◌∷◌, ◌-◌, ◌*◌, ◌^◌, ◌≤◌, ◌<◌, ℕ, length};
ghost use Rattle.base.specs.Refusals.{refusal};
ghost use Rattle.table.specs.Records.{most_expressions};
ghost use Rattle.forest.specs.Forest.{use_rule};
ghost use Rattle.forest.specs.Counting.{listed, AllBelow, Counted, CountedBy, Counters, count_rule};
ghost use Rattle.forest.specs.declared.operands.Operands.{Operands};

use crate::operands;
use crate::operands::Operands;
use base::codes::Code;
use base::{Answer, first_fault};
use blocks::room::with_zeros;
use table::read::Table;

// One more use of each operand, where every counter has room for three.
fn note_all(counts: &mut [u16], operands: Operands)
    requires all_below { AllBelow (length counts.old) (listed operands) }
    requires counters { Counters (2 ^ 16 - 4) counts.old }
    ensures { Counted counts.old counts.new (listed operands) }
{
    for k in operands {
        counts[k as usize] += 1;
    }
}

// The uses by n records, by what gives the operands of each.
fn count<F: Fn(u32) -> Operands>(counts: &mut [u16], n: u32, operands_of: F)
    requires n_le_most_expressions { n ≤ most_expressions }
    requires counters { Counters (3 * most_expressions) counts.old }
    requires callable { (i : ℕ) → i < n → F.pre operands_of i }
    requires all_below { (i : ℕ) (o : Operands) → i < n → F.post operands_of i o → AllBelow (length counts.old) (listed o) }
    ensures { CountedBy (F.post operands_of) n counts.old counts.new }
{
    for i in 0..n {
        note_all(counts, operands_of(i));
    }
}

// Refusal 8, by counters that start at 0, one for each expression or more.
fn uses_in(table: &Table, counts: &mut [u16]) -> Answer
    requires expressions_in_bounds { table.now.frame.header.expressions ≤ length counts.old }
    requires counters { Counters 0 counts.old }
    ensures { result ≡ refusal (use_rule table.now.frame.bytes.now ∷ []) }
{
    count(
        counts,
        table.frame.header.expressions,
        |i| operands::of_expression(table.frame.expression(i)),
    );
    count(
        counts,
        table.frame.header.statements,
        |i| operands::of_statement(table.frame.statement(i)),
    );
    first_fault(
        Code::Uses,
        table.frame.header.expressions,
        |i| counts[i as usize] == 1,
    )
}

// Refusal 8 at the lowest expression that is not used exactly once.
pub fn uses_once(table: &Table) -> Answer
    ensures { result ≡ refusal (use_rule table.now.frame.bytes.now ∷ []) }
{
    with_zeros(table.frame.header.expressions, table, uses_in)
}
