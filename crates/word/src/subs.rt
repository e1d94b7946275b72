// Paper 01's numbers of the operations on words. specs/Subs.antt has the same numbers beside what they mean.
// They are no enum: a table's record and a call from C may hold any number, and one that is no sub gives unknown.

// Binary subs.
pub const PLUS: u32 = 1;

pub const MINUS: u32 = 2;

pub const TIMES: u32 = 3;

pub const DIV: u32 = 4;

pub const SDIV: u32 = 5;

pub const MODULO: u32 = 6;

pub const SMOD: u32 = 7;

pub const AND: u32 = 8;

pub const OR: u32 = 9;

pub const XOR: u32 = 10;

pub const LSL: u32 = 11;

pub const LSR: u32 = 12;

pub const ASR: u32 = 13;

pub const EQ: u32 = 14;

pub const NEQ: u32 = 15;

pub const LT: u32 = 16;

pub const LE: u32 = 17;

pub const SLT: u32 = 18;

pub const SLE: u32 = 19;

// Unary subs.
pub const NEG: u32 = 1;

pub const NOT: u32 = 2;

// Cast subs.
pub const LOW: u32 = 1;

pub const HIGH: u32 = 2;

pub const SIGNED: u32 = 3;

pub const UNSIGNED: u32 = 4;
