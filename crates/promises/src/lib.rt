// Nothing to run: the three demands over the contracts of the code.
#![tactic(auto)]
