// Comparisons: 1 where it holds, else 0. Each is its own test in one line, and one function that takes the test would be no shorter.
ghost use Rattle.std.specs.Prelude.{◌≡◌, ◌-◌, ◌^◌};
ghost use Rattle.word.specs.Words as Words;
ghost use Rattle.word.specs.Words.{IsWord, AreWords, Gives};

use crate::arithmetic::plus;
use crate::width::sign_bit;

pub fn eq(a: u64, b: u64) -> u64
    ensures { Gives 1 (Words.eq a b) result }
{
    u64::from(a == b)
}

pub fn neq(a: u64, b: u64) -> u64
    ensures { Gives 1 (Words.neq a b) result }
{
    u64::from(a != b)
}

pub fn lt(a: u64, b: u64) -> u64
    ensures { Gives 1 (Words.lt a b) result }
{
    u64::from(a < b)
}

pub fn le(a: u64, b: u64) -> u64
    ensures { Gives 1 (Words.le a b) result }
{
    u64::from(a <= b)
}

// A word raised by 2^(w - 1), modulo 2^w: such numbers are in order as the signed readings are.
fn raised(w: u32, a: u64) -> u64
    requires { IsWord w a }
    ensures { result ≡ Words.plus w a (2 ^ (w - 1)) }
{
    plus(w, a, sign_bit(w))
}

#[tactic(auto, using(crate::proofs::CompareLaws::slt_gives))]
pub fn slt(w: u32, a: u64, b: u64) -> u64
    requires { AreWords w a b }
    ensures { Gives 1 (Words.slt w a b) result }
{
    lt(raised(w, a), raised(w, b))
}

#[tactic(auto, using(crate::proofs::CompareLaws::sle_gives))]
pub fn sle(w: u32, a: u64, b: u64) -> u64
    requires { AreWords w a b }
    ensures { Gives 1 (Words.sle w a b) result }
{
    le(raised(w, a), raised(w, b))
}
