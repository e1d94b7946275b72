// Casts of a word of width w to p bits. Low and high don't widen, signed and unsigned don't narrow.
ghost use Rattle.std.specs.Prelude.{◌≤◌};
ghost use Rattle.word.specs.Words as Words;
ghost use Rattle.word.specs.Words.{IsWord, Width, Gives};

use crate::width::{mask, negative, trim};

pub fn low(w: u32, p: u32, a: u64) -> u64
    requires word { IsWord w a }
    requires width { Width p }
    requires p_le_w { p ≤ w }
    ensures { Gives p (Words.low p a) result }
{
    trim(p, a)
}

#[tactic(auto, using(crate::proofs::FitLaws::high_fits))]
pub fn high(w: u32, p: u32, a: u64) -> u64
    requires word { IsWord w a }
    requires width { Width p }
    requires p_le_w { p ≤ w }
    ensures { Gives p (Words.high w p a) result }
{
    a >> (w - p)
}

// Of a negative word the complement stays, and ones come in above it.
#[tactic(auto, using(crate::proofs::CastLaws::widened_below, crate::proofs::CastLaws::widened_plain, std::proofs::Common::pow_mono, std::proofs::Common::pow_pos))]
pub fn signed(w: u32, p: u32, a: u64) -> u64
    requires word { IsWord w a }
    requires width { Width p }
    requires w_le_p { w ≤ p }
    ensures { Gives p (Words.widened w p a) result }
{
    if negative(w, a) {
        mask(p) - (mask(w) - a)
    } else {
        a
    }
}

#[tactic(auto, using(std::proofs::Common::pow_mono))]
pub fn unsigned(w: u32, p: u32, a: u64) -> u64
    requires word { IsWord w a }
    requires width { Width p }
    requires w_le_p { w ≤ p }
    ensures { Gives p a result }
{
    a
}
