// No code: the promises of the checker, each a type in specs/, all of them kept in proofs/.
#![tactic(auto)]
