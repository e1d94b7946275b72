// What an expression gives when its operands were evaluated, the last of them just now: a stop of it is the expression's own.
ghost use Rattle.std.specs.Prelude.{◌≡◌};
ghost use Rattle.memory.specs.Buffer.{held, room_of};
ghost use Rattle.logs.specs.Held.{Holds};
ghost use Rattle.operation.specs.ByOp.{one_value, two_value, three_value, OneFits, TwoFits, ThreeFits};
ghost use Rattle.operation.specs.After.{AfterOne, AfterTwo, AfterThree, one_after, two_after, three_after};
ghost use Rattle.operation.specs.Outcome.{Leaves};

use base::codes::Stop;
use logs::load::load;
use logs::store::store;
use memory::LogBuffer;
use table::{Node, ops};
use value::{Value, ValueType};

// By the value of one operand: unknown for an op that has not one.
#[tactic(auto, unfolding(crate::specs::ByOp::one_value, crate::specs::ByOp::ones))]
fn of_one(r: Node, x: Value) -> Value
    requires { OneFits r x }
    ensures { result ≡ one_value r x }
{
    match r.op {
        ops::UNARY => x.unary(r.sub),
        ops::CAST => x.cast(r.sub, r.p),
        ops::EXTRACT => x.extract(r.p, r.q),
        _ => Value::Unknown(ValueType::Imm(1)),
    }
}

// By the values of two, in the order of their evaluation: unknown for an op that has not two.
#[tactic(auto, unfolding(crate::specs::ByOp::two_value, crate::specs::ByOp::twos))]
fn of_two(log: &LogBuffer, r: Node, x: Value, y: Value) -> Value
    requires holds { Holds log.now.numbers.now log.now.count }
    requires two_fits { TwoFits (held log.now) r x y }
    ensures { result ≡ two_value (held log.now) r x y }
{
    match r.op {
        ops::LOAD => load(log.numbers, log.count, r.p, r.q == 1, y, x),
        ops::BINARY => x.binary(r.sub, y),
        ops::CONCAT => x.concat(y),
        _ => Value::Unknown(ValueType::Imm(1)),
    }
}

// By the values of three: unknown for an op that has not three. Only a store writes to the log, and it stops where the log is full.
#[tactic(auto, unfolding(crate::specs::ByOp::three_value, crate::specs::ByOp::threes))]
fn of_three(log: &mut LogBuffer, r: Node, x: Value, y: Value, z: Value) -> Result<Value, Stop>
    requires holds { Holds log.old.numbers.now log.old.count }
    requires three_fits { ThreeFits (held log.old) r x y z }
    ensures { Leaves log.old (three_value (room_of log.old) (held log.old) r x y z) result log.new }
{
    match r.op {
        ops::STORE => store(log, r.p, r.q == 1, z, y, x).map_err(|_| Stop::LogFull),
        ops::ITE => Ok(z.choose(y, x)),
        _ => Ok(Value::Unknown(ValueType::Imm(1))),
    }
}

// After the only operand.
pub fn one(r: Node, e: Result<Value, Stop>) -> Result<Value, Stop>
    requires { AfterOne r e }
    ensures { result ≡ one_after r e }
{
    Ok(of_one(r, e?))
}

// After the second of two operands, x being the value of the first.
pub fn two(log: &LogBuffer, r: Node, x: Value, e: Result<Value, Stop>) -> Result<Value, Stop>
    requires { AfterTwo log.now r x e }
    ensures { result ≡ two_after log.now r x e }
{
    Ok(of_two(log, r, x, e?))
}

// After the third of three operands, x and y being the values of the first two.
pub fn three(
    log: &mut LogBuffer,
    r: Node,
    x: Value,
    y: Value,
    e: Result<Value, Stop>,
) -> Result<Value, Stop>
    requires { AfterThree log.old r x y e }
    ensures { Leaves log.old (three_after log.old r x y e) result log.new }
{
    of_three(log, r, x, y, e?)
}
