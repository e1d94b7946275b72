// And, or, xor and not, bit by bit.
ghost use Rattle.word.specs.Words as Words;
ghost use Rattle.word.specs.Words.{IsWord, AreWords, Gives};

use crate::width::mask;

#[tactic(auto, using(crate::proofs::BitLaws::and_is, std::proofs::lemmas::Nat::and_le_l))]
pub fn and(w: u32, a: u64, b: u64) -> u64
    requires { AreWords w a b }
    ensures { Gives w (Words.and w a b) result }
{
    a & b
}

#[tactic(auto, using(crate::proofs::BitLaws::or_is, std::proofs::lemmas::Nat::or_lt))]
pub fn or(w: u32, a: u64, b: u64) -> u64
    requires { AreWords w a b }
    ensures { Gives w (Words.or w a b) result }
{
    a | b
}

#[tactic(auto, using(crate::proofs::BitLaws::xor_is, std::proofs::lemmas::Nat::xor_lt))]
pub fn xor(w: u32, a: u64, b: u64) -> u64
    requires { AreWords w a b }
    ensures { Gives w (Words.xor w a b) result }
{
    a ^ b
}

pub fn not(w: u32, a: u64) -> u64
    requires { IsWord w a }
    ensures { Gives w (Words.not w a) result }
{
    mask(w) - a
}
