// Room for a number beside each record of a table.
ghost use Rattle.std.specs.Prelude.{◌≤◌};
ghost use Rattle.table.specs.Records.{most_expressions};
ghost use Rattle.blocks.specs.Room.{TakesZeros, OnZeros};

use table::framing::MOST_EXPRESSIONS;

// What some work gives for a table on zeros, one for each of n records or more. The room goes by n, since all of it is zeroed: a small
// table doesn't pay for the zeros of the largest.
pub fn with_zeros<T, R, F: FnOnce(&T, &mut [u16]) -> R>(n: u32, table: &T, work: F) -> R
    requires n_le_most_expressions { n ≤ most_expressions }
    requires callable { TakesZeros (F.pre work table) n }
    ensures { OnZeros (F.post work table.entry) n result }
{
    if n <= 64 {
        let mut few = [0u16; 64];
        return work(table, &mut few[..]);
    }
    if n <= 1024 {
        let mut some = [0u16; 1024];
        return work(table, &mut some[..]);
    }
    let mut all = [0u16; MOST_EXPRESSIONS as usize];
    work(table, &mut all[..])
}
