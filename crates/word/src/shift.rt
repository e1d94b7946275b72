// Shifts. One by the width or more gives zeros, and for asr the sign. Lsl and lsr share a test alone: a closure for the rest would be longer.
ghost use Rattle.word.specs.Words as Words;
ghost use Rattle.word.specs.Words.{AreWords, Gives};

use crate::width::{mask, negative, trim};

#[tactic(auto, using(crate::proofs::WidthLaws::cut_twice, crate::proofs::ShiftLaws::lsl_narrow))]
pub fn lsl(w: u32, a: u64, b: u64) -> u64
    requires { AreWords w a b }
    ensures { Gives w (Words.lsl w a b) result }
{
    if b < (w as u64) { trim(w, a << b) } else { 0 }
}

pub fn lsr(w: u32, a: u64, b: u64) -> u64
    requires { AreWords w a b }
    ensures { Gives w (Words.lsr w a b) result }
{
    if b < (w as u64) { a >> b } else { 0 }
}

// Of a negative word the complement is shifted, so that ones come in from above.
#[tactic(auto, using(crate::proofs::ShiftLaws::asr_below, crate::proofs::ShiftLaws::asr_plain))]
pub fn asr(w: u32, a: u64, b: u64) -> u64
    requires { AreWords w a b }
    ensures { Gives w (Words.asr w a b) result }
{
    if negative(w, a) {
        let m = mask(w);
        m - lsr(w, m - a, b)
    } else {
        lsr(w, a, b)
    }
}
