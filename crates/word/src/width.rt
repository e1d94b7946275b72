// Masks, the sign bit, and the tests of a word.
ghost use Rattle.std.specs.Prelude.{◌≡◌, ◌-◌, ◌%◌, ◌^◌, nat_lt};
ghost use Rattle.word.specs.Words.{Width, IsWord, Gives, negative};

// 2^w - 1: every bit of a word of width w.
#[tactic(auto, using(crate::proofs::WidthLaws::ones_shifted))]
pub fn mask(w: u32) -> u64
    requires { Width w }
    ensures { result ≡ 2 ^ w - 1 }
{
    u64::MAX >> (64 - w)
}

// x modulo 2^w.
#[tactic(auto, using(crate::proofs::WidthLaws::cut_by_mask, std::proofs::lemmas::Nat::and_le_r, std::proofs::lemmas::Nat::pow_pos))]
pub fn trim(w: u32, x: u64) -> u64
    requires { Width w }
    ensures { Gives w (x % 2 ^ w) result }
{
    x & mask(w)
}

// 2^(w - 1): the highest bit of a word of width w.
pub fn sign_bit(w: u32) -> u64
    requires { Width w }
    ensures { result ≡ 2 ^ (w - 1) }
{
    1 << (w - 1)
}

// Whether the signed reading of a word is below zero.
pub fn negative(w: u32, a: u64) -> bool
    requires { IsWord w a }
    ensures { result ≡ negative w a }
{
    sign_bit(w) <= a
}

// Whether a number needs no more bits than w: 64 less its leading zeros is at most w.
#[tactic(auto, using(crate::proofs::WidthLaws::length_le_is_fits))]
pub fn fits(w: u32, x: u64) -> bool
    ensures { result ≡ nat_lt x (2 ^ w) }
{
    64 - x.leading_zeros() <= w
}
