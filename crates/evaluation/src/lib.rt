// The evaluation of expressions. Definitions and laws; the code is in `operation` and `evaluate`.
#![tactic(auto)]
