// Refusal 5: what a variable must be.
ghost use Rattle.std.specs.Prelude.{◌≡◌, ◌&&◌, ◌||◌, [], ◌∷◌, eqb};
ghost use Rattle.base.specs.Choice as Choice;
ghost use Rattle.base.specs.Refusals.{refusal};
ghost use Rattle.table.specs.Records.{variable_ok, variable_rule};

use base::codes::Code;
use base::{Answer, first_fault, within};
use table::Variable;
use table::read::Frame;

// Whether there is such a type: an immediate has no address width, a memory holds bytes.
fn type_ok(v: Variable) -> bool
    ensures { result ≡ ((eqb v.kind 1 && (Choice.within 1 64 v.width && eqb v.addressWidth 0))
        || (eqb v.kind 2 && (eqb v.width 8 && Choice.within 1 64 v.addressWidth))) }
{
    ((v.kind == 1) & (within(1, 64, v.width) & (v.addressWidth == 0)))
        | ((v.kind == 2) & ((v.width == 8) & within(1, 64, v.addressWidth)))
}

// Whether a variable's record is one.
fn variable_ok(v: Variable) -> bool
    ensures { result ≡ variable_ok v }
{
    type_ok(v) & ((v.label <= 1) & ((v.role <= 1) & (v.spare == 0)))
}

// Refusal 5 at the lowest variable that is none.
pub fn variables(frame: &Frame) -> Answer
    ensures { result ≡ refusal (variable_rule frame.now.bytes.now ∷ []) }
{
    first_fault(
        Code::Variable,
        frame.header.variables,
        |i| variable_ok(frame.variable(i)),
    )
}
