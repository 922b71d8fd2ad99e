// Lemmas over plain lists and numbers that several crates cite; they stand in proofs/.
#![tactic(auto)]
