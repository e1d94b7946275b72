// Division and remainder, unsigned and signed. By zero they give unknown. The magnitude of a word is 0 where the word is, so that the signed
// ones need no test of their own; what they share is in magnitude and with_sign.
ghost use Rattle.std.specs.Prelude.{◌≡◌, ◌^◌, ◌<◌, unsigned_abs};
ghost use Rattle.word.specs.Words as Words;
ghost use Rattle.word.specs.Words.{IsWord, AreWords, Gives, Computes, signed, with_sign, word_of};

use crate::arithmetic::neg;
use crate::width::negative;

pub fn div(w: u32, a: u64, b: u64) -> Option<u64>
    requires { AreWords w a b }
    ensures { Computes w (Words.div a b) result }
{
    a.checked_div(b)
}

pub fn modulo(w: u32, a: u64, b: u64) -> Option<u64>
    requires { AreWords w a b }
    ensures { Computes w (Words.modulo a b) result }
{
    a.checked_rem(b)
}

// The signed reading without its sign.
#[tactic(auto, using(crate::proofs::DivisionLaws::magnitude_below, crate::proofs::DivisionLaws::magnitude_plain))]
fn magnitude(w: u32, a: u64) -> u64
    requires { IsWord w a }
    ensures { Gives w (unsigned_abs (signed w a)) result }
{
    if negative(w, a) { neg(w, a) } else { a }
}

// The word of a number, or of its negative.
#[tactic(auto, using(crate::proofs::DivisionLaws::signed_minus, crate::proofs::DivisionLaws::signed_plain))]
fn with_sign(w: u32, minus: bool, n: u64) -> u64
    requires { IsWord w n }
    ensures { Gives w (word_of w (with_sign minus n)) result }
{
    if minus { neg(w, n) } else { n }
}

#[tactic(auto, using(crate::proofs::DivisionLaws::no_divisor, crate::proofs::DivisionLaws::sdiv_gives))]
pub fn sdiv(w: u32, a: u64, b: u64) -> Option<u64>
    requires { AreWords w a b }
    ensures { Computes w (Words.sdiv w a b) result }
{
    let quotient = magnitude(w, a).checked_div(magnitude(w, b))?;
    Some(with_sign(w, negative(w, a) != negative(w, b), quotient))
}

#[tactic(auto, using(crate::proofs::DivisionLaws::no_divisor, crate::proofs::DivisionLaws::smod_gives))]
pub fn smod(w: u32, a: u64, b: u64) -> Option<u64>
    requires { AreWords w a b }
    ensures { Computes w (Words.smod w a b) result }
{
    let remainder = magnitude(w, a).checked_rem(magnitude(w, b))?;
    Some(with_sign(w, negative(w, a), remainder))
}
