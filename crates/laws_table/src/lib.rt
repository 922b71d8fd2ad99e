// A policy and its words determine each other: the predicate stands in specs/, the theorems in proofs/.
#![tactic(auto)]
