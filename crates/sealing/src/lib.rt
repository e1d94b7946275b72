// The seal rules: the label that each op makes of the labels of its operands, in ops, and that a record gives, in by_op.
#![tactic(auto)]

pub mod by_op;
pub mod ops;

// What labelling finds: whether an expression is sealed, or nothing where a rule is broken in it or inside it.
pub type Label = Option<bool>;
