// An entry of the log in its buffer: the one function that reads an entry's numbers, and the one that writes them. The definitions and
// laws of chains, loads and stores are here too; the code of loads and stores is in `logs`.
#![tactic(auto)]

ghost use Rattle.std.specs.Prelude.{◌≡◌, ◌+◌, ◌-◌, ◌*◌, ◌<◌, ◌≤◌, length, OnOk, OnErr};
ghost use Rattle.std.proofs.lemmas.List.Edits.{sets};
ghost use Rattle.memory.specs.Log.{entry_size, entry_at, fields_of};
ghost use Rattle.memory.specs.Buffer.{room_of, Pushed};

// "previous entry (0 or a lower number; entries count from 1), address width (1 to 64), address, byte (0 to 255, or 256 unknown)"
#[derive(Clone, Copy)]
pub struct Entry {
    pub previous: u64,
    pub width: u64,
    pub address: u64,
    pub byte: u64,
}

// "An entry is four 64-bit numbers": where each stands, from the entry's place in the buffer on.
pub const ENTRY_SIZE: usize = 4;

const PREVIOUS: usize = 0;

const WIDTH: usize = 1;

const ADDRESS: usize = 2;

const BYTE: usize = 3;

// A byte of which nothing is known.
pub const UNKNOWN_BYTE: u64 = 256;

// Entry n of the buffer, whatever its numbers are. Entries count from 1.
pub fn entry_at(log: &[u64], n: usize) -> Entry
    requires le_n { 1 ≤ n }
    requires n_in_bounds { entry_size * n ≤ length log.now }
    ensures { result ≡ entry_at log.now (entry_size * (n - 1)) }
{
    let at = ENTRY_SIZE * (n - 1);
    Entry {
        previous: log[at + PREVIOUS],
        width: log[at + WIDTH],
        address: log[at + ADDRESS],
        byte: log[at + BYTE],
    }
}

// An entry written behind the first count.
pub fn write_entry(log: &mut [u64], count: usize, entry: Entry)
    requires { entry_size * count + entry_size ≤ length log.old }
    ensures { log.new ≡ sets log.old (entry_size * count) (fields_of entry) }
{
    let at = ENTRY_SIZE * count;
    log[at + PREVIOUS] = entry.previous;
    log[at + WIDTH] = entry.width;
    log[at + ADDRESS] = entry.address;
    log[at + BYTE] = entry.byte;
}

// The log in its buffer: the numbers of its entries, and how many entries it has. What stands behind them is nobody's yet.
#[derive(Drop)]
pub struct LogBuffer<'a> {
    pub numbers: &'a mut [u64],
    pub count: usize,
}

// A log that has no room for one entry more.
#[derive(Clone, Copy)]
pub struct Full;

impl LogBuffer<'_> {
    // One entry more, behind the others. Where there is no room for it the buffer is as it was.
    pub fn push(&mut self, entry: Entry) -> Result<(), Full>
        requires { entry_size * self.old.count ≤ length self.old.numbers.now }
        ensures ok { OnOk result ((self.old.count < room_of self.old) × Pushed self.old entry self.new) }
        ensures full { OnErr result ((room_of self.old ≤ self.old.count) × (self.new ≡ self.old)) }
    {
        if self.numbers.len() / ENTRY_SIZE <= self.count {
            return Err(Full);
        }
        write_entry(self.numbers, self.count, entry);
        self.count += 1;
        Ok(())
    }
}
