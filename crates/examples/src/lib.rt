// The worked examples of the rules, as rows of one table. There is nothing to run.
#![tactic(auto)]
