// A part of a word, and two words joined.
ghost use Rattle.std.specs.Prelude.{◌+◌, ◌-◌, ◌≤◌};
ghost use Rattle.word.specs.Words as Words;
ghost use Rattle.word.specs.Words.{IsWord, Gives};

use crate::width::trim;

// Bits p down to q of a word, with zeros above it.
#[tactic(auto, using(crate::proofs::CastLaws::extract_above, std::proofs::lemmas::Nat::pow_pos))]
pub fn extract(w: u32, p: u32, q: u32, a: u64) -> u64
    requires word { IsWord w a }
    requires q_le_p { q ≤ p }
    requires p_bound { p ≤ q + 63 }
    ensures { Gives (p - q + 1) (Words.extract p q a) result }
{
    if q < 64 { trim(p - q + 1, a >> q) } else { 0 }
}

// A word a of width w above a word b of width v.
#[tactic(auto, using(crate::proofs::CastLaws::concat_is, crate::proofs::FitLaws::concat_fits))]
pub fn concat(w: u32, v: u32, a: u64, b: u64) -> u64
    requires word { IsWord w a }
    requires word_2 { IsWord v b }
    requires v_bound { w + v ≤ 64 }
    ensures { Gives (w + v) (Words.concat v a b) result }
{
    a << v | b
}
