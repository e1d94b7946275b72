// Refusal 7: what a statement's record must be.
ghost use Rattle.std.specs.Prelude.{◌≡◌, ◌&&◌, [], ◌∷◌, ◌≤◌, ◌<◌, eqb, length};
ghost use Rattle.base.specs.Refusals.{refusal};
ghost use Rattle.table.specs.Fields as Fields;
ghost use Rattle.table.specs.Records as Records;
ghost use Rattle.blocks.specs.Owners as Owners;

use crate::bodies;
use crate::room::with_zeros;
use base::codes::Code;
use base::{Answer, Refusal};
use records::fields::variable_of;
use table::read::Frame;
use table::{Node, ROLE_STATE, ops};

// Whether x is the number of a state variable.
#[tactic(auto, unfolding(table::specs::Records::field_ok))]
fn state_variable(frame: &Frame, x: u32) -> bool
    ensures { result ≡ Records.field_ok frame.now.bytes.now frame.now.header.expressions Fields.state_variable x }
{
    variable_of(frame, ROLE_STATE, x)
}

// Whether the fields that no statement names are 0, and the others hold.
fn fields(r: Node, named: bool) -> bool
    ensures { result ≡ (eqb r.sub 0 && (eqb r.p 0 && (eqb r.q 0 && named))) }
{
    (r.sub == 0) & ((r.p == 0) & ((r.q == 0) & named))
}

// Whether each field of a statement's record is what its op asks.
#[tactic(auto, unfolding(table::specs::Fields::statement_row, table::specs::Fields::statement_rows, table::specs::Records::record_ok, table::specs::Records::field_ok))]
fn fields_ok(frame: &Frame, r: Node) -> bool
    ensures { result ≡ Records.record_ok frame.now.bytes.now frame.now.header.expressions (Fields.statement_row r) r }
{
    let op = r.op;
    let all = frame.header.expressions;
    match op {
        ops::MOVE => fields(r, state_variable(frame, r.a) & ((r.b < all) & (r.c == 0))),
        ops::JMP => fields(r, (r.a < all) & ((r.b == 0) & (r.c == 0))),
        ops::CPUEXN => fields(r, (r.b == 0) & (r.c == 0)),
        ops::SPECIAL => fields(r, (r.b == 0) & (r.c == 0)),
        ops::WHILE => fields(r, (r.a < all) & ((r.c == 0) & (1 <= r.b))),
        ops::IF => fields(r, (r.a < all) & (1 <= r.b)),
        _ => false,
    }
}

// Whether statement i is one that there may be, by its owner: its fields hold, and its bodies end inside the block around it.
fn holds(frame: &Frame, i: u32, owner: u16) -> bool
    requires i_lt_statements { i < frame.now.header.statements }
    requires owner_value { owner ≡ Owners.owner frame.now.bytes.now i i }
    ensures { result ≡ (Records.statement_rule frame.now.bytes.now).holds i }
{
    let r = frame.statement(i);
    let named = fields_ok(frame, r);
    let end = bodies::second_end(frame, i);
    let around = bodies::block_end(frame, i, owner);
    named & (end <= around)
}

// Refusal 7 at the first statement that breaks its rule, in one pass over the statements that keeps the owner of each: an owner is at
// most 1,024.
fn pass(frame: &Frame, owners: &mut [u16]) -> Answer
    requires statements_in_bounds { frame.now.header.statements ≤ length owners.old }
    ensures { result ≡ refusal (Records.statement_rule frame.now.bytes.now ∷ []) }
{
    for i in 0..frame.header.statements {
        let owner = bodies::owner_of(frame, owners, i);
        if !holds(frame, i, owner) {
            return Err(Refusal {
                code: Code::Statement,
                place: i,
            });
        }
        owners[i as usize] = owner;
    }
    Ok(())
}

// Refusal 7 at the first statement that breaks its rule.
pub fn statements(frame: &Frame) -> Answer
    ensures { result ≡ refusal (Records.statement_rule frame.now.bytes.now ∷ []) }
{
    with_zeros(frame.header.statements, frame, pass)
}
