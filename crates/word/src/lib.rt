// The operations of paper 01 on words of 1 to 64 bits.
//
// A word of width w is a number below 2^w. Each function asks that its widths are 1 to 64 and that its words fit them, and
// gives exactly what the definition of the same name in specs/Words.antt says: a word that fits, or, where paper 01 says so,
// unknown, which is None. The three functions here choose an operation by the number that paper 01 gives it (specs/Subs.antt).
// A word's width and bits stay two arguments: C hands them over so, and a type of both would ask more of those who call.
#![tactic(auto)]

ghost use Rattle.word.specs.Words.{IsWord, AreWords, Width, Computes};
ghost use Rattle.word.specs.Subs as Subs;

pub mod arithmetic;
pub mod bits;
pub mod casts;
pub mod compare;
pub mod division;
pub mod join;
pub mod shift;
pub mod subs;
pub mod width;

// The binary operation of a sub on two words of width w; unknown for a number that is no sub.
pub fn binary(sub: u32, w: u32, a: u64, b: u64) -> Option<u64>
    requires { AreWords w a b }
    ensures { Computes (Subs.binary_width sub w) (Subs.binary sub w a b) result }
{
    match sub {
        subs::PLUS => Some(arithmetic::plus(w, a, b)),
        subs::MINUS => Some(arithmetic::minus(w, a, b)),
        subs::TIMES => Some(arithmetic::times(w, a, b)),
        subs::DIV => division::div(w, a, b),
        subs::SDIV => division::sdiv(w, a, b),
        subs::MODULO => division::modulo(w, a, b),
        subs::SMOD => division::smod(w, a, b),
        subs::AND => Some(bits::and(w, a, b)),
        subs::OR => Some(bits::or(w, a, b)),
        subs::XOR => Some(bits::xor(w, a, b)),
        subs::LSL => Some(shift::lsl(w, a, b)),
        subs::LSR => Some(shift::lsr(w, a, b)),
        subs::ASR => Some(shift::asr(w, a, b)),
        subs::EQ => Some(compare::eq(a, b)),
        subs::NEQ => Some(compare::neq(a, b)),
        subs::LT => Some(compare::lt(a, b)),
        subs::LE => Some(compare::le(a, b)),
        subs::SLT => Some(compare::slt(w, a, b)),
        subs::SLE => Some(compare::sle(w, a, b)),
        _ => None,
    }
}

// The unary operation of a sub on a word of width w; unknown for a number that is no sub.
pub fn unary(sub: u32, w: u32, a: u64) -> Option<u64>
    requires { IsWord w a }
    ensures { Computes w (Subs.unary sub w a) result }
{
    match sub {
        subs::NEG => Some(arithmetic::neg(w, a)),
        subs::NOT => Some(bits::not(w, a)),
        _ => None,
    }
}

// The cast of a sub from width w to width p; unknown for a number that is no sub.
pub fn cast(sub: u32, w: u32, p: u32, a: u64) -> Option<u64>
    requires word { IsWord w a }
    requires width { Width p }
    requires cast_fits { Subs.CastFits sub w p }
    ensures { Computes p (Subs.cast sub w p a) result }
{
    match sub {
        subs::LOW => Some(casts::low(w, p, a)),
        subs::HIGH => Some(casts::high(w, p, a)),
        subs::SIGNED => Some(casts::signed(w, p, a)),
        subs::UNSIGNED => Some(casts::unsigned(w, p, a)),
        _ => None,
    }
}
