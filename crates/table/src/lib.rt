// The table of paper 01: its bytes, its frame and its records.
#![tactic(auto)]

pub mod bytes;
pub mod framing;
pub mod ops;
pub mod read;

// The header: format, address width A, then the counts V, E and S, each with the offset of its section, and the total length.
#[derive(Clone, Copy)]
pub struct Header {
    pub format: u32,
    pub width: u32,
    pub variables: u32,
    pub variablesAt: u32,
    pub expressions: u32,
    pub expressionsAt: u32,
    pub statements: u32,
    pub statementsAt: u32,
    pub total: u32,
}

// A variable's 8 bytes: kind 1 immediate or 2 memory, label 0 open or 1 sealed, width, address width, role 0 state or 1 let, and the
// last three bytes as one number.
#[derive(Clone, Copy)]
pub struct Variable {
    pub kind: u32,
    pub label: u32,
    pub width: u32,
    pub addressWidth: u32,
    pub role: u32,
    pub spare: u32,
}

// An expression's or a statement's 16 bytes. A statement's sub, p and q are its three zeros.
#[derive(Clone, Copy)]
pub struct Node {
    pub op: u32,
    pub sub: u32,
    pub p: u32,
    pub q: u32,
    pub a: u32,
    pub b: u32,
    pub c: u32,
}

// The roles of a variable. They are no enum, and kinds and labels are none: a record holds any byte until refusal 5 is ruled out.
pub const ROLE_STATE: u32 = 0;

pub const ROLE_LET: u32 = 1;
