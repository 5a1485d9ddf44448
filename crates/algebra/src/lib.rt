// The theory of max-plus sets: definitions in specs/, theorems in proofs/. There is nothing to run.
#![tactic(auto)]
