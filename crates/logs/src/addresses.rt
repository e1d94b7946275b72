// Addresses, upward modulo 2^width.
ghost use Rattle.word.specs.Words.{IsWord, Gives};
ghost use Rattle.memory.specs.Access.{succ};

use word::width::trim;

// The address above a.
pub fn above(w: u32, a: u64) -> u64
    requires { IsWord w a }
    ensures { Gives w (succ w a) result }
{
    trim(w, a.wrapping_add(1))
}
