// Nothing to run: paper 01's examples with numbers, as one theorem.
#![tactic(auto)]
