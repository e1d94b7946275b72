// Refusal 17: what the entries of a log must be.
ghost use Rattle.std.specs.Prelude.{◌≡◌, ◌&&◌, ◌||◌, [], ◌∷◌, ◌*◌, ◌^◌, ◌≤◌, leb, ltb, eqb, length};
ghost use Rattle.base.specs.Choice as Choice;
ghost use Rattle.base.specs.Refusals.{refusal};
ghost use Rattle.memory.specs.Log.{entry_size, unknown_byte, newest_ok, width_at};
ghost use Rattle.running.specs.Start.{most_entries, entry_rule};

use base::codes::Code;
use base::{Answer, first_fault};
use memory::{Entry, UNKNOWN_BYTE, entry_at};

// The first entries of a log's buffer, so many as count says. They lie in it.
#[derive(Clone, Copy)]
pub struct Entries<'a> {
    pub numbers: &'a [u64],
    pub count: u64,
    ghost inside: { entry_size * count ≤ length numbers.now },
}

// Whether an entry's numbers, save its previous entry, are in their limits.
fn fields_ok(entry: Entry) -> bool
    ensures { result ≡ (Choice.within 1 64 entry.width
        && (ltb entry.address (2 ^ entry.width) && leb entry.byte unknown_byte)) }
{
    1 <= entry.width
        && entry.width <= 64
        && word::width::fits(entry.width as u32, entry.address)
        && entry.byte <= UNKNOWN_BYTE
}

impl Entries<'_> {
    ghost use Rattle.starts.specs.Held.{held};

    // The first n of these.
    fn first(&self, n: u64) -> Entries<'_>
        requires { n ≤ self.now.count }
        ensures numbers { result.numbers.now ≡ self.now.numbers.now }
        ensures count { result.count ≡ n }
    {
        Entries {
            numbers: self.numbers,
            count: n,
        }
    }

    // Whether n is one of these entries and has the address width w.
    #[tactic(auto, using(crate::proofs::EntryLaws::head_is))]
    pub fn head_ok(&self, w: u64, n: u64) -> bool
        ensures { result ≡ (Choice.within 1 self.now.count n && eqb (width_at (held self.now) n) w) }
    {
        1 <= n && n <= self.count && entry_at(self.numbers, n as usize).width == w
    }

    // Whether an entry behind these may name its previous one: 0, or one of these that has the same width.
    fn previous_ok(&self, entry: Entry) -> bool
        ensures { result ≡ (leb entry.previous self.now.count
            && (eqb entry.previous 0 || eqb (width_at (held self.now) entry.previous) entry.width)) }
    {
        entry.previous == 0 || self.head_ok(entry.width, entry.previous)
    }

    // Whether the newest of these keeps the log's rules, among those before it. Where there is none it breaks none.
    #[tactic(auto, using(crate::proofs::EntryLaws::empty_holds, crate::proofs::EntryLaws::entry_goes_on, crate::proofs::EntryLaws::entry_fails))]
    fn newest_ok(&self) -> bool
        ensures { result ≡ newest_ok (held self.now) }
    {
        if self.count == 0 {
            return true;
        }
        let newest = entry_at(self.numbers, self.count as usize);
        fields_ok(newest) && self.first(self.count - 1).previous_ok(newest)
    }

    // Refusal 17 at the lowest of these entries that breaks the log's rules.
    pub fn all_ok(&self) -> Answer
        requires { self.now.count ≤ most_entries }
        ensures { result ≡ refusal (entry_rule self.now.numbers.now self.now.count ∷ []) }
    {
        first_fault(
            Code::Entry,
            self.count as u32 + 1,
            |n| self.first(n as u64).newest_ok(),
        )
    }
}
