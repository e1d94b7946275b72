// The statements without bodies.
ghost use Rattle.std.specs.Prelude.{◌≡◌, suc, ◌<◌};
ghost use Rattle.table.specs.Bytes as Bytes;
ghost use Rattle.table.specs.Decode.{block_at};
ghost use Rattle.effect.specs.Leaving.{Running, Standing, RunLeaves, ValueLeaves, evaluated, runs};

use crate::{Halt, Machine};
use base::codes::Stop;
use evaluate::whole::whole;
use table::read::Table;
use table::{Node, ops};
use value::Value;

// The value of expression e of statement i. Where the evaluation stops, the run does, at that statement.
fn value_of(table: &Table, machine: &mut Machine, e: u32, i: u32) -> Result<Value, Halt>
    requires running { Running table.now.frame.bytes.now machine.old }
    requires e_bound { e < (Bytes.header table.now.frame.bytes.now).expressions }
    ensures { ValueLeaves machine.old (evaluated table.now.frame.bytes.now machine.old.state.now machine.old.log.now e) i result machine.new }
{
    // Lent without this name, the state would come back with its length alone known.
    let state = &mut *machine.state;
    whole(table, state, machine.log, e).map_err(|code| Halt { code, statement: i })
}

// A move: the variable gets the value. Where the evaluation stops the state is as it was. The ticks are what is left once it is begun,
// here and below.
#[tactic(auto, using(crate::proofs::SingleLaws::moves))]
fn moves(table: &Table, machine: &mut Machine, r: Node, i: u32) -> Result<(), Halt>
    requires running { Running table.now.frame.bytes.now machine.old }
    requires standing { Standing table.now.frame.bytes.now i }
    requires r_value { r ≡ Bytes.statement table.now.frame.bytes.now i }
    requires op_value { r.op ≡ 1 }
    ensures { RunLeaves machine.old (runs table.now.frame.bytes.now machine.old (suc machine.old.ticks) (block_at table.now.frame.bytes.now i 1)) result machine.new }
{
    let v = value_of(table, machine, r.b, i)?;
    states::write(machine.state, r.a, v);
    Ok(())
}

// A jump: the next address is the value. Where the evaluation stops, or the value is unknown, it is as it was.
#[tactic(auto, using(crate::proofs::SingleLaws::jumps))]
fn jumps(table: &Table, machine: &mut Machine, r: Node, i: u32) -> Result<(), Halt>
    requires running { Running table.now.frame.bytes.now machine.old }
    requires standing { Standing table.now.frame.bytes.now i }
    requires r_value { r ≡ Bytes.statement table.now.frame.bytes.now i }
    requires op_value { r.op ≡ 2 }
    ensures { RunLeaves machine.old (runs table.now.frame.bytes.now machine.old (suc machine.old.ticks) (block_at table.now.frame.bytes.now i 1)) result machine.new }
{
    match value_of(table, machine, r.a, i)? {
        Value::Word(_, to) => {
            machine.next = to;
            Ok(())
        }
        _ => Err(Halt {
            code: Stop::JumpUnknown,
            statement: i,
        }),
    }
}

// A statement that has no body: cpuexn and special change nothing.
pub fn single(table: &Table, machine: &mut Machine, r: Node, i: u32) -> Result<(), Halt>
    requires running { Running table.now.frame.bytes.now machine.old }
    requires standing { Standing table.now.frame.bytes.now i }
    requires r_value { r ≡ Bytes.statement table.now.frame.bytes.now i }
    requires fact { (r.op ≡ 5 → ⊥) × (r.op ≡ 6 → ⊥) }
    ensures { RunLeaves machine.old (runs table.now.frame.bytes.now machine.old (suc machine.old.ticks) (block_at table.now.frame.bytes.now i 1)) result machine.new }
{
    match r.op {
        ops::MOVE => moves(table, machine, r, i),
        ops::JMP => jumps(table, machine, r, i),
        _ => Ok(()),
    }
}
