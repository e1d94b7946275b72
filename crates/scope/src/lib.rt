// Refusal 11: "A let variable is read only inside the body of a let of it, and a let never stands inside the body of another let of
// the same variable."
//
// Of each expression the nearest let in whose body it stands is kept, as one more than the let's number, or 0 where there is none: an array of
// Options would be twice as large, and all of it is zeroed. Users come after their operands, so that from the last expression down each has
// what it needs when its turn comes.
//
// `rules` has refusals 8 to 11 together.
#![tactic(auto)]

ghost use Rattle.std.specs.Prelude.{◌≡◌, [], ◌∷◌, ◌≤◌, ◌<◌, length, replicate};
ghost use Rattle.base.specs.Refusals.{Accepted, refusal};
ghost use Rattle.table.specs.Bytes as Bytes;
ghost use Rattle.table.specs.Fields as Fields;
ghost use Rattle.table.specs.Records.{most_expressions};
ghost use Rattle.forest.specs.Forest.{in_body_of, in_scope, use_rule, scope_rule};
ghost use Rattle.forest.specs.Counting.{listed, AllBelow};
ghost use Rattle.scope.specs.Scoping.{NearestFrom, Stored, HandedDown};

use base::codes::Code;
use base::{Answer, Refusal};
use blocks::room::with_zeros;
use forest::operands;
use forest::operands::Operands;
use table::read::{Frame, Table};
use table::{Node, ROLE_LET, ops};

pub mod rules;

// v for each operand.
fn store_all(lets: &mut [u16], operands: Operands, v: u16)
    requires { AllBelow (length lets.old) (listed operands) }
    ensures { Stored v (listed operands) lets.old lets.new }
{
    for k in operands {
        lets[k as usize] = v;
    }
}

// The operands of expression i stand where it stands, the body of a let in that let.
fn hand_down(lets: &mut [u16], r: Node, i: u32)
    requires i_lt_most_expressions { i < most_expressions }
    requires i_in_bounds { i < length lets.old }
    requires all_below { AllBelow (length lets.old) (Fields.operands (Fields.expression_row r) r) }
    ensures { HandedDown r i lets.old lets.new }
{
    let outer = lets[i as usize];
    store_all(lets, operands::of_expression(r), outer);
    if r.op == ops::LET {
        lets[r.c as usize] = i as u16 + 1;
    }
}

// Whether expression i stands in the body of a let of variable x: up the lets around it.
fn in_body(frame: &Frame, lets: &[u16], x: u32, i: u32) -> bool
    requires i_lt_expressions { i < frame.now.header.expressions }
    requires expressions_in_bounds { frame.now.header.expressions ≤ length lets.now }
    requires nearest_from { NearestFrom frame.now.bytes.now lets.now i }
    ensures { result ≡ in_body_of frame.now.bytes.now x i }
{
    let mut k = i;
    while let Some(m) = lets[k as usize].checked_sub(1) {
        k = m as u32;
        if frame.expression(k).a == x {
            return true;
        }
    }
    false
}

// Whether expression i, with the record r, is no let variable outside its lets and no let inside a let of its variable.
fn in_scope(table: &Table, lets: &[u16], r: Node, i: u32) -> bool
    requires i_lt_expressions { i < table.now.frame.header.expressions }
    requires expressions_in_bounds { table.now.frame.header.expressions ≤ length lets.now }
    requires nearest_from { NearestFrom table.now.frame.bytes.now lets.now i }
    requires r_value { r ≡ Bytes.expression table.now.frame.bytes.now i }
    ensures { result ≡ in_scope table.now.frame.bytes.now i }
{
    match r.op {
        ops::LET => !in_body(&table.frame, lets, r.a, i),
        ops::VAR => table.frame.variable(r.a).role != ROLE_LET
            || in_body(&table.frame, lets, r.a, i),
        _ => true,
    }
}

// The search with a place for each expression in lets, all of them 0.
fn scopes_in(table: &Table, lets: &mut [u16]) -> Answer
    requires s_value { refusal (use_rule table.now.frame.bytes.now ∷ []) ≡ Accepted }
    requires expressions_in_bounds { table.now.frame.header.expressions ≤ length lets.old }
    requires lets_value { lets.old ≡ replicate (length lets.old) 0 }
    ensures { result ≡ refusal (scope_rule table.now.frame.bytes.now ∷ []) }
{
    let mut lowest = None;
    for i in (0..table.frame.header.expressions).rev() {
        let r = table.frame.expression(i);
        if !in_scope(table, lets, r, i) {
            lowest = Some(i);
        }
        hand_down(lets, r, i);
    }
    match lowest {
        Some(i) => Err(Refusal {
            code: Code::Scope,
            place: i,
        }),
        None => Ok(()),
    }
}

// Refusal 11 at the lowest expression that reads a let variable outside its lets or is a let inside another let of its variable.
pub fn scopes_ok(table: &Table) -> Answer
    requires s_value { refusal (use_rule table.now.frame.bytes.now ∷ []) ≡ Accepted }
    ensures { result ≡ refusal (scope_rule table.now.frame.bytes.now ∷ []) }
{
    with_zeros(table.frame.header.expressions, table, scopes_in)
}
