// What C programs call: the functions of `bil` under the C names. include/bil.h declares them.
//
// Each has the clauses of `bil`'s function of its name and only calls it; proofs/Same.antt says that the two contracts are one.
#![tactic(auto)]

ghost use Rattle.std.specs.Prelude.{◌≡◌};
ghost use Rattle.base.specs.Refusals.{code_of, place_of};
ghost use Rattle.sealing.specs.Verdict as Sealing;
ghost use Rattle.typing.specs.Verdict as Typing;
ghost use Rattle.starts.specs.Lent.{lent};
ghost use Rattle.bil.specs.RunCall.{left, call};
ghost use Rattle.bil.specs.WordCalls as WordCalls;

// The kind of what a binary operation gives: 0 for a bad sub, width or word, 1 a word, 2 unknown.
#[unsafe(no_mangle)]
pub extern "C" fn bil_word_kind(sub: u32, width: u32, a: u64, b: u64) -> u32
    ensures { result ≡ WordCalls.kind (WordCalls.call sub width a b) }
{
    bil::bil_word_kind(sub, width, a, b)
}

// The word that a binary operation gives, 0 unless the kind is 1.
#[unsafe(no_mangle)]
pub extern "C" fn bil_word_value(sub: u32, width: u32, a: u64, b: u64) -> u64
    ensures { result ≡ WordCalls.value (WordCalls.call sub width a b) }
{
    bil::bil_word_value(sub, width, a, b)
}

// The code of the first of refusals 1 to 13 that comes, 0 where the table is accepted.
#[unsafe(no_mangle)]
pub extern "C" fn bil_check_code(table: &[u8]) -> u32
    ensures { result ≡ code_of (Typing.check table.now) }
{
    bil::bil_check_code(table)
}

// The place of the refusal whose code bil_check_code gives, 0 where the table is accepted.
#[unsafe(no_mangle)]
pub extern "C" fn bil_check_place(table: &[u8]) -> u32
    ensures { result ≡ place_of (Typing.check table.now) }
{
    bil::bil_check_place(table)
}

// The code of the first of refusals 1 to 15 that comes, 0 where the table is accepted and clean.
#[unsafe(no_mangle)]
pub extern "C" fn bil_seal_code(table: &[u8]) -> u32
    ensures { result ≡ code_of (Sealing.seal_check table.now) }
{
    bil::bil_seal_code(table)
}

// The place of the refusal whose code bil_seal_code gives, 0 where the table is accepted and clean.
#[unsafe(no_mangle)]
pub extern "C" fn bil_seal_place(table: &[u8]) -> u32
    ensures { result ≡ place_of (Sealing.seal_check table.now) }
{
    bil::bil_seal_place(table)
}

// The run of what is lent. In out it gives code, place, ticks, log count and next address, and the answer is 1; where out is not five
// numbers nothing is written anywhere, and the answer is 0.
#[unsafe(no_mangle)]
pub extern "C" fn bil_run(
    table: &[u8],
    state: &mut [u64],
    log: &mut [u64],
    count: u64,
    next: u64,
    budget: u32,
    out: &mut [u64],
) -> u32
    ensures { left result state.new log.new out.new ≡ call (lent table.now state.old log.old count next budget) out.old }
{
    bil::bil_run(table, state, log, count, next, budget, out)
}
