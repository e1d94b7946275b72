// Run of a block and run of a statement call each other: a block's statements are a loop, and so are a while's turns. A statement is
// begun with a tick, so each body runs with fewer ticks than its statement had. The calls go no deeper than statements nest, 32: no
// budget needs more room than another.
ghost use Rattle.std.specs.Prelude.{◌≡◌, suc, ◌<◌, OnOk, OnErr, Err};
ghost use Rattle.table.specs.Bytes as Bytes;
ghost use Rattle.table.specs.Decode.{block_at};
ghost use Rattle.table.specs.Asked.{IsBlock};
ghost use Rattle.effect.specs.Leaving.{Running, Standing, RunLeaves, evaluated, runs};
ghost use Rattle.execute.specs.Extent.{bodies_of};
ghost use Rattle.execute.specs.Begun.{Begins, GuardLeaves};

use base::codes::Stop;
use effect::guard::test;
use effect::single::single;
use effect::{Halt, Machine};
use table::read::Table;
use table::{Node, ops};

// How many statements stand in the bodies of a statement.
fn bodies_of(r: Node) -> u32
    requires { bodies_of r < 4294967296 }
    ensures { result ≡ bodies_of r }
{
    match r.op {
        ops::WHILE => r.b,
        ops::IF => r.b + r.c,
        _ => 0,
    }
}

// "A tick is charged when a statement is begun": a stop at statement i where none is left.
fn begin(machine: &mut Machine, i: u32) -> Result<(), Halt>
    ensures begun { OnOk result (Begins machine.old machine.new) }
    ensures none { OnErr result ((machine.old.ticks ≡ 0) × ((result ≡ Err (record { code = Stop.NoTick; statement = i })) × (machine.new ≡ machine.old))) }
{
    if machine.ticks == 0 {
        return Err(Halt {
            code: Stop::NoTick,
            statement: i,
        });
    }
    machine.ticks -= 1;
    Ok(())
}

// Whether the guard of statement i holds.
fn holds(table: &Table, machine: &mut Machine, r: Node, i: u32) -> Result<bool, Halt>
    requires running { Running table.now.frame.bytes.now machine.old }
    requires e_bound { r.a < (Bytes.header table.now.frame.bytes.now).expressions }
    ensures { GuardLeaves machine.old (evaluated table.now.frame.bytes.now machine.old.state.now machine.old.log.now r.a) i result machine.new }
{
    // As in effect: lent without this name, the state would come back with its length alone known.
    let state = &mut *machine.state;
    test(table, state, machine.log, r.a).map_err(|code| Halt { code, statement: i })
}

// The statements from number `from` on, so many of them, those in their bodies counted. No `for`: a turn goes past a statement and its bodies.
#[cycle(block_statement_turns)]
pub fn block(table: &Table, machine: &mut Machine, from: u32, size: u32) -> Result<(), Halt>
    requires running { Running table.now.frame.bytes.now machine.old }
    requires block { IsBlock table.now.frame.bytes.now from size }
    ensures { RunLeaves machine.old (runs table.now.frame.bytes.now machine.old machine.old.ticks (block_at table.now.frame.bytes.now from size)) result machine.new }
{
    let end = from + size;
    let mut i = from;
    while i < end {
        let r = table.frame.statement(i);
        statement(table, machine, r, i)?;
        i = i + 1 + bodies_of(r);
    }
    Ok(())
}

// A while: the test, the body, and the while again.
#[cycle(block_statement_turns)]
fn turns(table: &Table, machine: &mut Machine, r: Node, i: u32) -> Result<(), Halt>
    requires running { Running table.now.frame.bytes.now machine.old }
    requires standing { Standing table.now.frame.bytes.now i }
    requires r_value { r ≡ Bytes.statement table.now.frame.bytes.now i }
    requires op_value { r.op ≡ 5 }
    ensures { RunLeaves machine.old (runs table.now.frame.bytes.now machine.old machine.old.ticks (block_at table.now.frame.bytes.now i (suc (bodies_of r)))) result machine.new }
{
    loop {
        begin(machine, i)?;
        if !holds(table, machine, r, i)? {
            return Ok(());
        }
        block(table, machine, i + 1, r.b)?;
    }
}

// One statement, with its bodies.
#[cycle(block_statement_turns)]
fn statement(table: &Table, machine: &mut Machine, r: Node, i: u32) -> Result<(), Halt>
    requires running { Running table.now.frame.bytes.now machine.old }
    requires standing { Standing table.now.frame.bytes.now i }
    requires r_value { r ≡ Bytes.statement table.now.frame.bytes.now i }
    ensures { RunLeaves machine.old (runs table.now.frame.bytes.now machine.old machine.old.ticks (block_at table.now.frame.bytes.now i (suc (bodies_of r)))) result machine.new }
{
    match r.op {
        ops::WHILE => turns(table, machine, r, i),
        ops::IF => {
            begin(machine, i)?;
            if holds(table, machine, r, i)? {
                block(table, machine, i + 1, r.b)
            } else {
                block(table, machine, i + 1 + r.b, r.c)
            }
        }
        _ => {
            begin(machine, i)?;
            single(table, machine, r, i)
        }
    }
}
