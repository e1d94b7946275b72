// Where the bodies of statements end, and the block around a statement.
//
// A statement's owner is the nearest statement above it in one of whose bodies it stands. Owners are kept as one more than a
// statement's number, and 0 for none: an array of Options would be twice as large, and all of it is zeroed.
ghost use Rattle.std.specs.Prelude.{◌≡◌, ◌||◌, ◌≤◌, ◌<◌, eqb, length};
ghost use Rattle.std.specs.Prelude.{if◌then◌else◌};
ghost use Rattle.table.specs.Records as Records;
ghost use Rattle.blocks.specs.Owners as Owners;

use table::ops::{IF, WHILE};
use table::read::Frame;

// How many statements the first body of an op has.
fn first_size(op: u32, b: u32) -> u64
    ensures { (result ≡ (if eqb op 5 || eqb op 6 then b else 0)) × (result ≤ 4294967295) }
{
    if (op == WHILE) | (op == IF) {
        return b as u64;
    }
    0
}

// How many statements the second body of an op has.
fn second_size(op: u32, c: u32) -> u64
    ensures { (result ≡ (if eqb op 6 then c else 0)) × (result ≤ 4294967295) }
{
    if op == IF {
        return c as u64;
    }
    0
}

// Where the first body of statement j ends.
fn first_end(frame: &Frame, j: u32) -> u64
    requires j_lt_statements { j < frame.now.header.statements }
    ensures { (result ≡ Records.first_end frame.now.bytes.now j) × (result ≤ 4294968320) }
{
    let r = frame.statement(j);
    let op = r.op;
    let b = r.b;
    (j as u64) + 1 + first_size(op, b)
}

// Where the second body of statement j ends.
pub fn second_end(frame: &Frame, j: u32) -> u64
    requires j_lt_statements { j < frame.now.header.statements }
    ensures { result ≡ Records.second_end frame.now.bytes.now j }
{
    let r = frame.statement(j);
    let op = r.op;
    let c = r.c;
    first_end(frame, j) + second_size(op, c)
}

// The owner of statement i, from those of the statements before it. A statement between another one and its owner ends before
// that one, so the search goes from the statement before i from owner to owner.
pub(crate) fn owner_of(frame: &Frame, owners: &[u16], i: u32) -> u16
    requires i_lt_statements { i < frame.now.header.statements }
    requires statements_in_bounds { frame.now.header.statements ≤ length owners.now }
    requires known { Owners.Known frame.now.bytes.now i owners.now }
    ensures { result ≡ Owners.owner frame.now.bytes.now i i }
{
    let mut n = i;
    while let Some(j) = n.checked_sub(1) {
        let end = second_end(frame, j);
        if (i as u64) < end {
            return n as u16;
        }
        n = owners[j as usize] as u32;
    }
    0
}

// Where the block around statement i ends.
#[tactic(auto, using(crate::proofs::OwnerLaws::owner_le))]
pub(crate) fn block_end(frame: &Frame, i: u32, owner: u16) -> u64
    requires i_lt_statements { i < frame.now.header.statements }
    requires owner_value { owner ≡ Owners.owner frame.now.bytes.now i i }
    ensures { result ≡ Records.block_end frame.now.bytes.now i }
{
    if owner == 0 {
        return frame.header.statements as u64;
    }
    let j = owner as u32 - 1;
    let first = first_end(frame, j);
    if (i as u64) < first {
        return first;
    }
    second_end(frame, j)
}
