// "At most 64 bindings in force travel with the walk": a struct by value, 11 bytes a binding.
#![tactic(auto)]

ghost use Rattle.std.specs.Prelude.{◌≡◌, ◌≤◌, ◌<◌};
ghost use Rattle.value.specs.Values.{size, type_of};
ghost use Rattle.evaluation.specs.Evaluation.{most_bindings};
ghost use Rattle.bindings.specs.Bound.{value_held, kind_held, found, bindings_of, none, more};

use states::number_of;
use value::{Value, ValueType};

// The first `count` places are in use, the outermost binding first: a variable's number, and its value's kind, width and number. One array of
// structs was tried: a binding takes 24 bytes then, and the deepest table 331,920 bytes of stack, where bil.h says 256 KiB.
#[derive(Clone, Copy)]
pub struct Bindings {
    pub variables: [u8; 64],
    pub kinds: [u8; 64],
    pub widths: [u8; 64],
    pub numbers: [u64; 64],
    pub count: usize,
}

// The kinds of values. They are numbers of a byte: with an enum of kind and width a binding takes more than 11 bytes.
pub const WORD: u8 = 1;

pub const UNKNOWN_WORD: u8 = 2;

pub const MEMORY: u8 = 3;

pub const UNKNOWN_MEMORY: u8 = 4;

// The value of a kind, a width and a number: an unknown word for any number that is no kind.
fn value_of(kind: u8, width: u8, number: u64) -> Value
    ensures { result ≡ value_held kind width number }
{
    let w = width as u32;
    match kind {
        WORD => Value::Word(w, number),
        MEMORY => Value::Memory(w, number),
        UNKNOWN_MEMORY => Value::Unknown(ValueType::Mem(w)),
        _ => Value::Unknown(ValueType::Imm(w)),
    }
}

// A value's kind.
fn kind_of(v: Value) -> u8
    ensures { result ≡ kind_held v }
{
    match v {
        Value::Word(_, _) => WORD,
        Value::Unknown(t) => match t {
            ValueType::Imm(_) => UNKNOWN_WORD,
            ValueType::Mem(_) => UNKNOWN_MEMORY,
        },
        Value::Memory(_, _) => MEMORY,
    }
}

impl Bindings {
    // No binding.
    pub fn none() -> Bindings
        ensures { result ≡ none }
    {
        Bindings {
            variables: [0; 64],
            kinds: [0; 64],
            widths: [0; 64],
            numbers: [0; 64],
            count: 0,
        }
    }

    // One binding more, inside all others.
    pub fn with(mut self, x: u32, v: Value) -> Bindings
        requires count_lt_most_bindings { self.count < most_bindings }
        requires x_bound { x < 256 }
        requires v_bound { size (type_of v) < 256 }
        ensures { result ≡ more self x v }
    {
        let at = self.count;
        self.variables[at] = x as u8;
        self.kinds[at] = kind_of(v);
        self.widths[at] = v.type_of().size() as u8;
        self.numbers[at] = number_of(v);
        self.count = at + 1;
        self
    }

    // The value of a variable's innermost binding, if one is in force.
    pub fn find(&self, x: u32) -> Option<Value>
        requires { self.now.count ≤ most_bindings }
        ensures { result ≡ found (bindings_of self.now) x }
    {
        for i in (0..self.count).rev() {
            if self.variables[i] as u32 == x {
                return Some(value_of(self.kinds[i], self.widths[i], self.numbers[i]));
            }
        }
        None
    }
}
