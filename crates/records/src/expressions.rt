// Refusal 6: what an expression must be. Each op has a function that tests its row, the fields sub, p, q, a, b and c in that order, and
// then what the row asks beyond them. Such a function is told the number i of the expression, and operands are below it.
ghost use Rattle.std.specs.Prelude.{◌≡◌, ◌&&◌, List, [], ◌∷◌, ℕ, ◌+◌, ◌*◌, ◌^◌, ◌<◌, leb, eqb};
ghost use Rattle.std.specs.Prelude.{if◌then◌else◌};
ghost use Rattle.base.specs.Refusals.{refusal};
ghost use Rattle.table.specs.Bytes as Bytes;
ghost use Rattle.table.specs.Fields.{expression_row};
ghost use Rattle.table.specs.Records.{record_ok, expression_rule};

use crate::fields::{all, size, variable_of};
use base::codes::Code;
use base::{Answer, first_fault, within};
use table::bytes::word_value;
use table::read::Frame;
use table::{Node, ROLE_LET, ops};
use word::subs;

// Whether there is such a type: q 0 an immediate of width p, else a memory of bytes with address width q.
fn unknown_type(p: u32, q: u32) -> bool
    ensures { result ≡ (if eqb q 0 then leb 1 p && leb p 64 else eqb p 8 && leb q 64) }
{
    if q == 0 {
        (1 <= p) & (p <= 64)
    } else {
        (p == 8) & (q <= 64)
    }
}

// Whether bits p down to q are 1 to 64 bits.
fn bits(p: u32, q: u32) -> bool
    ensures { result ≡ (leb q p && leb p (q + 63)) }
{
    q <= p && p - q <= 63
}

// var: variable a.
fn var_ok(variables: u32, n: Node) -> bool
    requires { n.op ≡ 1 }
    ensures { (s : List ℕ) (i : ℕ) → (Bytes.header s).variables ≡ variables → result ≡ record_ok s i (expression_row n) n }
{
    all(
        n.sub == 0,
        n.p == 0,
        n.q == 0,
        n.a < variables,
        n.b == 0,
        n.c == 0,
        true,
    )
}

// word: width p, value b + 2^32·c, which fits the width.
fn word_ok(n: Node) -> bool
    requires { n.op ≡ 2 }
    ensures { (s : List ℕ) (i : ℕ) → result ≡ record_ok s i (expression_row n) n }
{
    all(
        n.sub == 0,
        within(1, 64, n.p),
        n.q == 0,
        n.a == 0,
        true,
        true,
        word::width::fits(n.p, word_value(n)),
    )
}

// load: size p, order q, operands a and b.
fn load_ok(i: u32, n: Node) -> bool
    requires { n.op ≡ 3 }
    ensures { (s : List ℕ) → result ≡ record_ok s i (expression_row n) n }
{
    all(
        n.sub == 0,
        size(n.p),
        n.q <= 1,
        n.a < i,
        n.b < i,
        n.c == 0,
        true,
    )
}

// store: size p, order q, operands a, b and c.
fn store_ok(i: u32, n: Node) -> bool
    requires { n.op ≡ 4 }
    ensures { (s : List ℕ) → result ≡ record_ok s i (expression_row n) n }
{
    all(
        n.sub == 0,
        size(n.p),
        n.q <= 1,
        n.a < i,
        n.b < i,
        n.c < i,
        true,
    )
}

// binary: the operation sub, operands a and b.
fn binary_ok(i: u32, n: Node) -> bool
    requires { n.op ≡ 5 }
    ensures { (s : List ℕ) → result ≡ record_ok s i (expression_row n) n }
{
    all(
        within(subs::PLUS, subs::SLE, n.sub),
        n.p == 0,
        n.q == 0,
        n.a < i,
        n.b < i,
        n.c == 0,
        true,
    )
}

// unary: the operation sub, operand a.
fn unary_ok(i: u32, n: Node) -> bool
    requires { n.op ≡ 6 }
    ensures { (s : List ℕ) → result ≡ record_ok s i (expression_row n) n }
{
    all(
        within(subs::NEG, subs::NOT, n.sub),
        n.p == 0,
        n.q == 0,
        n.a < i,
        n.b == 0,
        n.c == 0,
        true,
    )
}

// cast: the kind sub, width p, operand a.
fn cast_ok(i: u32, n: Node) -> bool
    requires { n.op ≡ 7 }
    ensures { (s : List ℕ) → result ≡ record_ok s i (expression_row n) n }
{
    all(
        within(subs::LOW, subs::UNSIGNED, n.sub),
        within(1, 64, n.p),
        n.q == 0,
        n.a < i,
        n.b == 0,
        n.c == 0,
        true,
    )
}

// let: let variable a, operands b and c.
fn let_ok(frame: &Frame, i: u32, n: Node) -> bool
    requires { n.op ≡ 8 }
    ensures { result ≡ record_ok frame.now.bytes.now i (expression_row n) n }
{
    all(
        n.sub == 0,
        n.p == 0,
        n.q == 0,
        variable_of(frame, ROLE_LET, n.a),
        n.b < i,
        n.c < i,
        true,
    )
}

// unknown: a type, of p and q.
fn unknown_ok(n: Node) -> bool
    requires { n.op ≡ 9 }
    ensures { (s : List ℕ) (i : ℕ) → result ≡ record_ok s i (expression_row n) n }
{
    all(
        n.sub == 0,
        true,
        true,
        n.a == 0,
        n.b == 0,
        n.c == 0,
        unknown_type(n.p, n.q),
    )
}

// ite: operands a, b and c.
fn ite_ok(i: u32, n: Node) -> bool
    requires { n.op ≡ 10 }
    ensures { (s : List ℕ) → result ≡ record_ok s i (expression_row n) n }
{
    all(
        n.sub == 0,
        n.p == 0,
        n.q == 0,
        n.a < i,
        n.b < i,
        n.c < i,
        true,
    )
}

// extract: bits p down to q of operand a.
fn extract_ok(i: u32, n: Node) -> bool
    requires { n.op ≡ 11 }
    ensures { (s : List ℕ) → result ≡ record_ok s i (expression_row n) n }
{
    all(
        n.sub == 0,
        true,
        true,
        n.a < i,
        n.b == 0,
        n.c == 0,
        bits(n.p, n.q),
    )
}

// concat: operands a and b.
fn concat_ok(i: u32, n: Node) -> bool
    requires { n.op ≡ 12 }
    ensures { (s : List ℕ) → result ≡ record_ok s i (expression_row n) n }
{
    all(
        n.sub == 0,
        n.p == 0,
        n.q == 0,
        n.a < i,
        n.b < i,
        n.c == 0,
        true,
    )
}

// Whether expression i is one, by the row of its op.
fn expression_ok(frame: &Frame, i: u32) -> bool
    requires { i < frame.now.header.expressions }
    ensures { result ≡ record_ok frame.now.bytes.now i (expression_row (Bytes.expression frame.now.bytes.now i))
        (Bytes.expression frame.now.bytes.now i) }
{
    let n = frame.expression(i);
    let op = n.op;
    match op {
        ops::VAR => var_ok(frame.header.variables, n),
        ops::WORD => word_ok(n),
        ops::LOAD => load_ok(i, n),
        ops::STORE => store_ok(i, n),
        ops::BINARY => binary_ok(i, n),
        ops::UNARY => unary_ok(i, n),
        ops::CAST => cast_ok(i, n),
        ops::LET => let_ok(frame, i, n),
        ops::UNKNOWN => unknown_ok(n),
        ops::ITE => ite_ok(i, n),
        ops::EXTRACT => extract_ok(i, n),
        ops::CONCAT => concat_ok(i, n),
        _ => false,
    }
}

// Refusal 6 at the lowest expression that is none.
pub fn expressions(frame: &Frame) -> Answer
    ensures { result ≡ refusal (expression_rule frame.now.bytes.now ∷ []) }
{
    first_fault(
        Code::Expression,
        frame.header.expressions,
        |i| expression_ok(frame, i),
    )
}
