// The test of a guard.
ghost use Rattle.std.specs.Prelude.{◌≡◌, ◌<◌};
ghost use Rattle.table.specs.Bytes as Bytes;
ghost use Rattle.bindings.specs.Bound as Bound;
ghost use Rattle.evaluate.specs.Ready.{Ready};
ghost use Rattle.effect.specs.Leaving.{TestLeaves, test_of, evaluated};

use base::codes::Stop;
use evaluate::whole::whole;
use memory::LogBuffer;
use table::read::Table;
use value::Value;

// By the guard's value: 1 holds and 0 fails; unknown stops, and so does a memory, which no accepted table has for a guard.
#[tactic(auto, using(crate::proofs::LeavingLaws::guards))]
fn by_value(v: Value) -> Result<bool, Stop>
    ensures { result ≡ test_of v }
{
    match v {
        Value::Word(_, bits) => Ok(bits == 1),
        _ => Err(Stop::GuardUnknown),
    }
}

// Whether expression e holds. Where its evaluation stops the test does, with the same number.
#[tactic(auto, using(crate::proofs::LeavingLaws::tests))]
pub fn test(table: &Table, state: &[u64], log: &mut LogBuffer, e: u32) -> Result<bool, Stop>
    requires ready { Ready table.now.frame.bytes.now state.now log.old Bound.none }
    requires e_bound { e < (Bytes.header table.now.frame.bytes.now).expressions }
    ensures { TestLeaves log.old (evaluated table.now.frame.bytes.now state.now log.old e) result log.new }
{
    by_value(whole(table, state, log, e)?)
}
