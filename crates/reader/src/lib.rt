// Refusals 1 to 7: the frame and every record of a table, of any bytes. What the later checks take is what this gives where it accepts.
#![tactic(auto)]

ghost use Rattle.std.specs.Prelude.{◌≡◌, ◌++◌, IfOk};
ghost use Rattle.base.specs.Refusals.{refusal, answer_of};
ghost use Rattle.table.specs.Records.{header_rules, record_rules};

use base::{Answer, Refusal};
use blocks::statements::statements;
use records::expressions::expressions;
use records::variables::variables;
use table::read::{Frame, Table};

// The first of refusals 5 to 7 that comes, at its lowest place.
#[tactic(auto, using(crate::proofs::RecordsLaws::answers))]
fn records_hold(frame: &Frame) -> Answer
    ensures { result ≡ refusal (record_rules frame.now.bytes.now) }
{
    variables(frame)?;
    expressions(frame)?;
    statements(frame)
}

// The first of refusals 1 to 7 that comes, at its lowest place, or the table that was read.
pub fn reads<'a>(s: &'a [u8]) -> Result<Table<'a>, Refusal>
    ensures answer { answer_of result ≡ refusal (header_rules s.now ++ record_rules s.now) }
    ensures bytes { IfOk result (λ table. table.frame.bytes ≡ s.entry) }
{
    let frame = Frame::read(s)?;
    records_hold(&frame)?;
    Ok(Table { frame })
}
