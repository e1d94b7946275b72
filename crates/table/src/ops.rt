// Paper 01's numbers of the ops. specs/Fields.antt has the same numbers beside their rows.
// They are no enum: a record holds any byte until refusals 6 and 7 are ruled out, and what a function promises of a record holds for every number.

// Ops of expressions.
pub const VAR: u32 = 1;

pub const WORD: u32 = 2;

pub const LOAD: u32 = 3;

pub const STORE: u32 = 4;

pub const BINARY: u32 = 5;

pub const UNARY: u32 = 6;

pub const CAST: u32 = 7;

pub const LET: u32 = 8;

pub const UNKNOWN: u32 = 9;

pub const ITE: u32 = 10;

pub const EXTRACT: u32 = 11;

pub const CONCAT: u32 = 12;

// Ops of statements.
pub const MOVE: u32 = 1;

pub const JMP: u32 = 2;

pub const CPUEXN: u32 = 3;

pub const SPECIAL: u32 = 4;

pub const WHILE: u32 = 5;

pub const IF: u32 = 6;
