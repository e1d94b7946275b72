// Nothing to run: the three demands over the rules.
#![tactic(auto)]
