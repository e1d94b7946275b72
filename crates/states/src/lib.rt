// A state's buffer: two numbers a variable.
#![tactic(auto)]

ghost use Rattle.std.specs.Prelude.{◌≡◌, ◌+◌, ◌*◌, ◌<◌, length};
ghost use Rattle.evaluation.specs.State.{value_of, kind_of, number_of, in_state, moved};

use value::{Value, ValueType};

// The kinds of values; 0 is that of an absent variable, and no accepted state has another. They are numbers, as C lends a state.
pub const WORD: u64 = 1;

pub const UNKNOWN: u64 = 2;

pub const MEMORY: u64 = 3;

// The value of a pair, for a variable of a type: unknown for an absent variable, and for any number that is no kind.
pub fn value_of(t: ValueType, kind: u64, number: u64) -> Value
    ensures { result ≡ value_of t kind number }
{
    match kind {
        WORD => Value::Word(t.size(), number),
        MEMORY => Value::Memory(t.size(), number),
        _ => Value::Unknown(t),
    }
}

// The first number of a value's pair.
pub fn kind_of(v: Value) -> u64
    ensures { result ≡ kind_of v }
{
    match v {
        Value::Word(_, _) => WORD,
        Value::Unknown(_) => UNKNOWN,
        Value::Memory(_, _) => MEMORY,
    }
}

// The second number of a value's pair.
pub fn number_of(v: Value) -> u64
    ensures { result ≡ number_of v }
{
    match v {
        Value::Word(_, bits) => bits,
        Value::Unknown(_) => 0,
        Value::Memory(_, head) => head,
    }
}

// The value of variable x, of a type.
pub fn read(state: &[u64], t: ValueType, x: u32) -> Value
    requires { 2 * x + 1 < length state.now }
    ensures { result ≡ in_state state.now t x }
{
    let at = 2 * (x as usize);
    value_of(t, state[at], state[at + 1])
}

// Variable x gets a value.
pub fn write(state: &mut [u64], x: u32, v: Value)
    requires { 2 * x + 1 < length state.old }
    ensures { state.new ≡ moved state.old x v }
{
    let at = 2 * (x as usize);
    state[at] = kind_of(v);
    state[at + 1] = number_of(v);
}
