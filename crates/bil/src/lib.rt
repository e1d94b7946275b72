// The library's face: what C programs call. `bil_c` exports these functions to C, and include/bil.h declares them.
//
// Every function takes every number and every slice that can be passed to it and asks nothing of its caller.
#![tactic(auto)]

ghost use Rattle.std.specs.Prelude.{◌≡◌};
ghost use Rattle.base.specs.Refusals.{code_of, place_of};
ghost use Rattle.sealing.specs.Verdict as Sealing;
ghost use Rattle.typing.specs.Verdict as Typing;
ghost use Rattle.starts.specs.Lent.{lent};
ghost use Rattle.bil.specs.RunCall.{left, call};
ghost use Rattle.bil.specs.WordCalls as WordCalls;

use base::{code_of, place_of, within};
use runner::entry::run;
use runner::numbers;
use verdict::{check, seal_check};

// Whether there is such a sub and such a width, and both words fit it.
fn good(sub: u32, width: u32, a: u64, b: u64) -> bool
    ensures { result ≡ WordCalls.good sub width a b }
{
    within(word::subs::PLUS, word::subs::SLE, sub)
        && within(1, 64, width)
        && word::width::fits(width, a)
        && word::width::fits(width, b)
}

// A bad sub, width or word in a call of a binary operation.
#[derive(Clone, Copy, PartialEq, Eq, Debug)]
pub struct BadCall;

// What a binary operation gives for any numbers: a word, or None where it is unknown.
fn word_call(sub: u32, width: u32, a: u64, b: u64) -> Result<Option<u64>, BadCall>
    ensures { result ≡ WordCalls.call sub width a b }
{
    if good(sub, width, a, b) {
        Ok(word::binary(sub, width, a, b))
    } else {
        Err(BadCall)
    }
}

// The kind of what a binary operation gives: 0 for a bad sub, width or word, 1 a word, 2 unknown.
pub fn bil_word_kind(sub: u32, width: u32, a: u64, b: u64) -> u32
    ensures { result ≡ WordCalls.kind (WordCalls.call sub width a b) }
{
    match word_call(sub, width, a, b) {
        Err(BadCall) => 0,
        Ok(Some(_)) => 1,
        Ok(None) => 2,
    }
}

// The word that a binary operation gives, 0 unless the kind is 1.
pub fn bil_word_value(sub: u32, width: u32, a: u64, b: u64) -> u64
    ensures { result ≡ WordCalls.value (WordCalls.call sub width a b) }
{
    match word_call(sub, width, a, b) {
        Err(BadCall) => 0,
        Ok(Some(r)) => r,
        Ok(None) => 0,
    }
}

// The code of the first of refusals 1 to 13 that comes, 0 where the table is accepted.
pub fn bil_check_code(table: &[u8]) -> u32
    ensures { result ≡ code_of (Typing.check table.now) }
{
    code_of(check(table))
}

// The place of the refusal whose code bil_check_code gives, 0 where the table is accepted.
pub fn bil_check_place(table: &[u8]) -> u32
    ensures { result ≡ place_of (Typing.check table.now) }
{
    place_of(check(table))
}

// The code of the first of refusals 1 to 15 that comes, 0 where the table is accepted and clean.
pub fn bil_seal_code(table: &[u8]) -> u32
    ensures { result ≡ code_of (Sealing.seal_check table.now) }
{
    code_of(seal_check(table))
}

// The place of the refusal whose code bil_seal_code gives, 0 where the table is accepted and clean.
pub fn bil_seal_place(table: &[u8]) -> u32
    ensures { result ≡ place_of (Sealing.seal_check table.now) }
{
    place_of(seal_check(table))
}

// The run of what is lent. In out it gives code, place, ticks, log count and next address, and the answer is 1; where out is not five
// numbers nothing is written anywhere, and the answer is 0.
#[tactic(auto, using(crate::proofs::RunCallLaws::lent_refused))]
pub fn bil_run(
    table: &[u8],
    state: &mut [u64],
    log: &mut [u64],
    count: u64,
    next: u64,
    budget: u32,
    out: &mut [u64],
) -> u32
    ensures { left result state.new log.new out.new ≡ call (lent table.now state.old log.old count next budget) out.old }
{
    if out.len() != 5 {
        return 0;
    }
    let r = run(table, state, log, count, next, budget);
    let ending = r.ending;
    let code = numbers::code_of(ending);
    let place = numbers::place_of(ending);
    out[0] = code as u64;
    out[1] = place as u64;
    out[2] = r.ticks as u64;
    out[3] = r.count;
    out[4] = r.next;
    1
}
