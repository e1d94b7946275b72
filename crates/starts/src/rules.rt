// Refusals 16 to 18 together, and 16 itself.
ghost use Rattle.std.specs.Prelude.{◌≡◌, [], ◌∷◌, ℕ};
ghost use Rattle.base.specs.Refusals.{refusal};
ghost use Rattle.running.specs.Start.{numbers_rule, start_rules};
ghost use Rattle.starts.specs.Lent.{lent};

use crate::entries::Entries;
use crate::pairs::pairs_ok;
use base::codes::Code;
use base::{Answer, first_fault};
use memory::ENTRY_SIZE;
use table::read::Frame;

// "over 65,536 entries"
const MOST_ENTRIES: usize = 65536;

// Refusal 16 at the lowest of its places that fails: 0 state, 1 log, 2 log count, 3 next address. Of a table it looks at the header.
fn numbers(frame: &Frame, state: &[u64], log: &[u64], count: u64, next: u64) -> Answer
    ensures { (budget : ℕ)
        → result ≡ refusal (numbers_rule (lent frame.now.bytes.now state.now log.now count next budget) ∷ []) }
{
    let room = log.len() / ENTRY_SIZE;
    let tests = [
        state.len() == 2 * (frame.header.variables as usize),
        (log.len() % ENTRY_SIZE == 0) & (room <= MOST_ENTRIES),
        count <= room as u64,
        word::width::fits(frame.header.width, next),
    ];
    first_fault(Code::Start, 4, |place| tests[place as usize])
}

// The first of refusals 16 to 18 that comes, at its lowest place, whatever the budget. Log and count come apart, since until refusal 16 is ruled
// out nothing says that the count fits.
#[tactic(auto, using(crate::proofs::StartLaws::answers))]
pub fn starts_ok(frame: &Frame, state: &[u64], log: &[u64], count: u64, next: u64) -> Answer
    ensures { (budget : ℕ)
        → result ≡ refusal (start_rules (lent frame.now.bytes.now state.now log.now count next budget)) }
{
    numbers(frame, state, log, count, next)?;
    let entries = Entries {
        numbers: log,
        count,
    };
    entries.all_ok()?;
    pairs_ok(frame, state, &entries)
}
