// Plus, minus, times and neg, modulo 2^w.
ghost use Rattle.word.specs.Words as Words;
ghost use Rattle.word.specs.Words.{IsWord, AreWords, Gives};

use crate::width::trim;

pub fn plus(w: u32, a: u64, b: u64) -> u64
    requires { AreWords w a b }
    ensures { Gives w (Words.plus w a b) result }
{
    trim(w, a.wrapping_add(b))
}

#[tactic(auto, using(crate::proofs::ArithmeticLaws::minus_cut))]
pub fn minus(w: u32, a: u64, b: u64) -> u64
    requires { AreWords w a b }
    ensures { Gives w (Words.minus w a b) result }
{
    trim(w, a.wrapping_sub(b))
}

#[tactic(auto, using(crate::proofs::WidthLaws::cut_twice))]
pub fn times(w: u32, a: u64, b: u64) -> u64
    requires { AreWords w a b }
    ensures { Gives w (Words.times w a b) result }
{
    trim(w, a.wrapping_mul(b))
}

pub fn neg(w: u32, a: u64) -> u64
    requires { IsWord w a }
    ensures { Gives w (Words.neg w a) result }
{
    minus(w, 0, a)
}
