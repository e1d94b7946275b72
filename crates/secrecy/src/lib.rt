// What a run shows of its sealed variables. Definitions and laws alone.
#![tactic(auto)]
