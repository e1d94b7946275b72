// Refusal 18: what the pair of a variable must be.
ghost use Rattle.std.specs.Prelude.{◌≡◌, [], ◌∷◌, ◌*◌, length};
ghost use Rattle.base.specs.Refusals.{refusal};
ghost use Rattle.starts.specs.Held.{held};
ghost use Rattle.running.specs.Start.{pair_ok, pair_rule};

use crate::entries::Entries;
use base::codes::Code;
use base::{Answer, first_fault};
use table::read::Frame;
use table::{ROLE_STATE, Variable};

// Whether a start may have the pair kind, n for a variable: "0,0 absent; 1,word that fits, for an immediate; 2,0 unknown; 3,head, for a
// memory", and for a let variable the first alone. The kinds are numbers, since C lends a state in numbers.
#[tactic(auto, using(crate::proofs::PairLaws::pair_laws))]
fn pair_ok(v: Variable, log: &Entries<'_>, kind: u64, n: u64) -> bool
    ensures { result ≡ pair_ok (held log.now) v kind n }
{
    match kind {
        0 => n == 0,
        _ if v.role != ROLE_STATE => false,
        1 => v.kind == 1 && word::width::fits(v.width, n),
        2 => n == 0,
        3 => v.kind == 2 && log.head_ok(v.addressWidth as u64, n),
        _ => false,
    }
}

// Refusal 18 at the lowest variable whose pair is none that a start may have for it.
pub fn pairs_ok(frame: &Frame, state: &[u64], log: &Entries<'_>) -> Answer
    requires state_len { length state.now ≡ 2 * frame.now.header.variables }
    ensures { result ≡ refusal (pair_rule frame.now.bytes.now state.now (held log.now) ∷ []) }
{
    first_fault(Code::Pair, frame.header.variables, |x| {
        let at = 2 * (x as usize);
        pair_ok(frame.variable(x), log, state[at], state[at + 1])
    })
}
