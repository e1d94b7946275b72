// The walk of a chain. It takes what a load does.
ghost use Rattle.std.specs.Prelude.{◌≡◌, ◌≤◌};
ghost use Rattle.memory.specs.Log.{entries, chain};
ghost use Rattle.memory.specs.Access.{byte_at};
ghost use Rattle.logs.specs.Held.{Holds};

use memory::{UNKNOWN_BYTE, entry_at};

// The byte at an address in the chain from an entry of the log, or from none: that of the first entry with the address, else unknown.
// The count is how many entries the log has.
pub fn byte_at(log: &[u64], count: usize, head: u64, address: u64) -> u64
    requires holds { Holds log.now count }
    requires head_le_count { head ≤ count }
    ensures { result ≡ byte_at (chain (entries log.now count) head) address }
{
    let mut at = head as usize;
    loop {
        if at == 0 {
            break UNKNOWN_BYTE;
        }
        let entry = entry_at(log, at);
        if entry.address == address {
            break entry.byte;
        }
        at = entry.previous as usize;
    }
}
