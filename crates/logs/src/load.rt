// Loads: the bytes from an address up, joined in their order. They only read, so they take the numbers and the count, and not the log that a store
// changes.
ghost use Rattle.std.specs.Prelude.{◌≡◌, ◌*◌, ◌^◌, ◌<◌, ◌≤◌};
ghost use Rattle.word.specs.Words.{IsWord};
ghost use Rattle.value.specs.declared.ValueType.{ValueType};
ghost use Rattle.value.specs.declared.Value.{Value};
ghost use Rattle.value.specs.Values.{Yields};
ghost use Rattle.table.specs.Asked.{SizeOk};
ghost use Rattle.memory.specs.Log.{entries, unknown_byte};
ghost use Rattle.memory.specs.Access as Access;
ghost use Rattle.logs.specs.Held.{Holds, Addressed};
ghost use Rattle.logs.specs.Joining.{Joins};

use crate::addresses::above;
use crate::chain::byte_at;
use memory::UNKNOWN_BYTE;
use value::{Value, ValueType};

// The word that i bytes make with one more: above them where the low byte comes first, else below them.
#[tactic(auto, using(crate::proofs::JoinLaws::bytes_below, crate::proofs::JoinLaws::byte_above, crate::proofs::JoinLaws::joins_first, crate::proofs::JoinLaws::joins_last))]
fn with_byte(big: bool, i: u32, v: u64, b: u64) -> u64
    requires i_bound { i < 8 }
    requires v_bound { v < 2 ^ (8 * i) }
    requires b_lt_unknown_byte { b < unknown_byte }
    ensures { Joins big i v b result }
{
    if big { v * 256 + b } else { (b << (8 * i)) + v }
}

// A load of z bits from address a of the chain from an entry: unknown at the first byte that is.
fn word_at(log: &[u64], count: usize, z: u32, big: bool, w: u32, head: u64, a: u64) -> Value
    requires holds { Holds log.now count }
    requires size_ok { SizeOk z }
    requires head_le_count { head ≤ count }
    requires word { IsWord w a }
    ensures { result ≡ Access.load (entries log.now count) z big (Value.Memory w head) (Value.Word w a) }
{
    let mut at = a;
    let mut v = 0;
    for i in 0..z / 8 {
        let b = byte_at(log, count, head, at);
        if UNKNOWN_BYTE <= b {
            return Value::Unknown(ValueType::Imm(z));
        }
        v = with_byte(big, i, v, b);
        at = above(w, at);
    }
    Value::Word(z, v)
}

// A load of z bits from a memory at an address: unknown where a byte of it, the address or the memory is.
pub fn load(log: &[u64], count: usize, z: u32, big: bool, memory: Value, address: Value) -> Value
    requires holds { Holds log.now count }
    requires size_ok { SizeOk z }
    requires addressed { Addressed (entries log.now count) memory address }
    ensures { Yields (ValueType.Imm z) (Access.load (entries log.now count) z big memory address) result }
{
    match (memory, address) {
        (Value::Memory(w, head), Value::Word(_, a)) => word_at(log, count, z, big, w, head, a),
        _ => Value::Unknown(ValueType::Imm(z)),
    }
}
