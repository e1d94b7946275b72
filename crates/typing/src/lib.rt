// The type rules: what each op makes of the types of its operands, in ops, or nothing where the rules give no type.
#![tactic(auto)]

pub mod by_op;
pub mod ops;
