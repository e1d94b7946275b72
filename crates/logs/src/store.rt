// Stores: an entry a byte, each the previous of the next, from an address up.
ghost use Rattle.std.specs.Prelude.{◌≡◌, ◌*◌, ◌/◌, ◌<◌, ◌≤◌, length, slice_index};
ghost use Rattle.word.specs.Words.{IsWord};
ghost use Rattle.table.specs.Asked.{SizeOk};
ghost use Rattle.memory.specs.Log.{entry_size};
ghost use Rattle.memory.specs.Buffer.{held, room_of};
ghost use Rattle.memory.specs.Access as Access;
ghost use Rattle.logs.specs.Held.{Holds, Addressed};
ghost use Rattle.logs.specs.Storing.{Leaves};

use crate::addresses::above;
use memory::{Entry, Full, LogBuffer, UNKNOWN_BYTE};
use value::Value;

// The byte of a value that is stored at the i-th address, of z bits in all.
fn byte_of(value: Value, z: u32, big: bool, i: u32) -> u64
    requires size_ok { SizeOk z }
    requires i_bound { i < z / 8 }
    ensures { result ≡ slice_index (Access.bytes_in z big value) i }
{
    match value {
        Value::Word(_, v) => {
            if big {
                (v >> (z - 8 - 8 * i)) & 255
            } else {
                (v >> (8 * i)) & 255
            }
        }
        _ => UNKNOWN_BYTE,
    }
}

// The bytes of a value appended to the chain from an entry, or from none.
#[tactic(auto, using(crate::proofs::AppendLaws::appends))]
fn append(
    log: &mut LogBuffer,
    z: u32,
    big: bool,
    w: u32,
    head: u64,
    a: u64,
    value: Value,
) -> Result<Value, Full>
    requires count_in_bounds { entry_size * log.old.count ≤ length log.old.numbers.now }
    requires size_ok { SizeOk z }
    requires word { IsWord w a }
    ensures { Leaves log.old (Access.append (room_of log.old) w (Access.bytes_in z big value) head a (held log.old)) result log.new }
{
    let mut newest = head;
    let mut at = a;
    for i in 0..z / 8 {
        log.push(Entry {
            previous: newest,
            width: w as u64,
            address: at,
            byte: byte_of(value, z, big, i),
        })?;
        newest = log.count as u64;
        at = above(w, at);
    }
    Ok(Value::Memory(w, newest))
}

// A store of a value's z bits to a memory at an address. At an unknown address nothing is appended and the memory is unknown. Where
// the log has no room for all bytes, those that fit are appended.
pub fn store(
    log: &mut LogBuffer,
    z: u32,
    big: bool,
    memory: Value,
    address: Value,
    value: Value,
) -> Result<Value, Full>
    requires holds { Holds log.old.numbers.now log.old.count }
    requires size_ok { SizeOk z }
    requires addressed { Addressed (held log.old) memory address }
    ensures { Leaves log.old (Access.store (room_of log.old) (held log.old) z big memory address value) result log.new }
{
    match address {
        Value::Word(w, a) => append(log, z, big, w, head_of(memory), a, value),
        _ => Ok(Value::Unknown(memory.type_of())),
    }
}

// The entry that a memory's chain starts at; an unknown memory is "a chain that starts from 0".
fn head_of(memory: Value) -> u64
    ensures { result ≡ Access.head_of memory }
{
    match memory {
        Value::Memory(_, head) => head,
        _ => 0,
    }
}
