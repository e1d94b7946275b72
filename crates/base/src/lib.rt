// What every layer shares: the answer of a check, its codes, and a test of a number. The rest is definitions and laws.
#![tactic(auto)]

pub mod codes;

ghost use Rattle.std.specs.Prelude.{◌≡◌, ℕ, [], ◌∷◌, ◌<◌};
ghost use Rattle.base.specs.Choice as Choice;
ghost use Rattle.base.specs.Refusals.{Rule, Refused, Searched, refusal, code_of, place_of};

use codes::Code;

// What a check refuses with: the code of the rule that is broken, and the lowest place where.
#[derive(Clone, Copy, Debug, PartialEq, Eq)]
pub struct Refusal {
    pub code: Code,
    pub place: u32,
}

// The answer of a check: nothing was found, or a refusal.
pub type Answer = Result<(), Refusal>;

// The answer's code, 0 where it accepts.
pub fn code_of(a: Answer) -> u32
    ensures { result ≡ code_of a }
{
    match a {
        Ok(()) => 0,
        Err(refusal) => refusal.code.number(),
    }
}

// The answer's place, 0 where it accepts.
pub fn place_of(a: Answer) -> u32
    ensures { result ≡ place_of a }
{
    match a {
        Ok(()) => 0,
        Err(refusal) => refusal.place,
    }
}

// The answer of two rules of which the second is broken at a place: the first rule's refusal, and where it accepts that of the second.
#[tactic(auto, using(crate::proofs::RefusalLaws::first_refuses, crate::proofs::RefusalLaws::first_accepts))]
pub fn or_refused(first: Answer, code: Code, place: u32) -> Answer
    ensures { (a b : Rule) → first ≡ refusal (a ∷ []) → Refused code place ≡ refusal (b ∷ []) → result ≡ refusal (a ∷ b ∷ []) }
{
    first?;
    Err(Refusal { code, place })
}

// The answer of a rule that looks at so many places, in their order: it is broken at the lowest one that doesn't hold.
pub fn first_fault<F: Fn(u32) -> bool>(code: Code, places: u32, holds: F) -> Answer
    requires { (i : ℕ) → i < places → F.pre holds i }
    ensures { Searched (F.post holds) code places result }
{
    for i in 0..places {
        if !holds(i) {
            return Err(Refusal { code, place: i });
        }
    }
    Ok(())
}

// Whether n is from least to most.
pub fn within(least: u32, most: u32, n: u32) -> bool
    ensures { result ≡ Choice.within least most n }
{
    least <= n && n <= most
}
