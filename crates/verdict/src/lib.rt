// The entries: check gives the first of refusals 1 to 13, the seal check the first of 1 to 15, of any bytes.
//
// Each part takes what those before it gave where they accepted.
#![tactic(auto)]

ghost use Rattle.std.specs.Prelude.{◌≡◌, ◌++◌, IfOk};
ghost use Rattle.base.specs.Refusals.{refusal, answer_of};
ghost use Rattle.forest.specs.Forest.{forest_rules};
ghost use Rattle.sealing.specs.Verdict as Sealing;
ghost use Rattle.typing.specs.Verdict as Typing;
ghost use Rattle.typing.specs.Verdict.{type_rules};

use base::{Answer, Refusal};
use reader::reads;
use scope::rules::forest_ok;
use sealcheck::rules::seals_ok;
use table::read::Table;
use typecheck::rules::types_ok;

// The first of refusals 8 to 13 that comes.
#[tactic(auto, using(crate::proofs::EntryLaws::forest_answers))]
fn forest_and_types(table: &Table) -> Answer
    ensures { result ≡ refusal (forest_rules table.now.frame.bytes.now ++ type_rules table.now.frame.bytes.now) }
{
    forest_ok(table)?;
    types_ok(table)
}

// The first of refusals 1 to 13 that comes, at its lowest place, or the table that is accepted.
pub fn accepted<'a>(s: &'a [u8]) -> Result<Table<'a>, Refusal>
    ensures answer { answer_of result ≡ Typing.check s.now }
    ensures bytes { IfOk result (λ table. table.frame.bytes ≡ s.entry) }
{
    let table = reads(s)?;
    forest_and_types(&table)?;
    Ok(table)
}

// The first of refusals 1 to 13 that comes, at its lowest place.
pub fn check(s: &[u8]) -> Answer
    ensures { result ≡ Typing.check s.now }
{
    accepted(s)?;
    Ok(())
}

// The first of refusals 1 to 15 that comes, at its lowest place.
#[tactic(auto, using(crate::proofs::EntryLaws::seal_answers))]
pub fn seal_check(s: &[u8]) -> Answer
    ensures { result ≡ Sealing.seal_check s.now }
{
    let table = accepted(s)?;
    seals_ok(&table)
}
