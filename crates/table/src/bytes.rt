// Numbers and records read off the table's bytes.
ghost use Rattle.std.specs.Prelude.{◌≡◌, ◌+◌, ◌*◌, ◌≤◌, ◌<◌, length, get_or};
ghost use Rattle.table.specs.Bytes as Bytes;
ghost use Rattle.table.specs.Bytes.{number};
ghost use Rattle.table.specs.Fields.{word_value};

use crate::{Header, Node, Variable};

// The byte at a place.
fn byte(s: &[u8], at: usize) -> u32
    requires { at < length s.now }
    ensures { (result ≡ get_or s.now at 0) × (result < 256) }
{
    s[at] as u32
}

// The number of two bytes from a place on, the low one first.
fn short(s: &[u8], at: usize) -> u32
    requires { at + 2 ≤ length s.now }
    ensures { result ≡ number 2 s.now at }
{
    byte(s, at) + 256 * byte(s, at + 1)
}

// The number of four bytes from a place on.
fn long(s: &[u8], at: usize) -> u32
    requires { at + 4 ≤ length s.now }
    ensures { result ≡ number 4 s.now at }
{
    byte(s, at) + 256 * byte(s, at + 1) + 65536 * byte(s, at + 2) + 16777216 * byte(s, at + 3)
}

// The header of 32 bytes or more.
pub fn header(s: &[u8]) -> Header
    requires { 32 ≤ length s.now }
    ensures { result ≡ Bytes.header s.now }
{
    Header {
        format: short(s, 0),
        width: short(s, 2),
        variables: long(s, 4),
        variablesAt: long(s, 8),
        expressions: long(s, 12),
        expressionsAt: long(s, 16),
        statements: long(s, 20),
        statementsAt: long(s, 24),
        total: long(s, 28),
    }
}

// The word of a record, in two numbers of 32 bits: "value b + 2^32·c".
pub fn word_value(r: Node) -> u64
    ensures { result ≡ word_value r }
{
    (r.b as u64) + 4294967296 * (r.c as u64)
}

// The variable's record at a place.
pub(crate) fn variable_at(s: &[u8], at: usize) -> Variable
    requires { at + 8 ≤ length s.now }
    ensures { result ≡ Bytes.variable_at s.now at }
{
    Variable {
        kind: byte(s, at),
        label: byte(s, at + 1),
        width: byte(s, at + 2),
        addressWidth: byte(s, at + 3),
        role: byte(s, at + 4),
        spare: byte(s, at + 5) + 256 * byte(s, at + 6) + 65536 * byte(s, at + 7),
    }
}

// The expression's or statement's record at a place.
pub(crate) fn node_at(s: &[u8], at: usize) -> Node
    requires { at + 16 ≤ length s.now }
    ensures { result ≡ Bytes.node_at s.now at }
{
    Node {
        op: byte(s, at),
        sub: byte(s, at + 1),
        p: byte(s, at + 2),
        q: byte(s, at + 3),
        a: long(s, at + 4),
        b: long(s, at + 8),
        c: long(s, at + 12),
    }
}
