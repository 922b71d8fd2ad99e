// No code: theorems on what a page refuses. The statements stand in specs/, the proofs in proofs/.
#![tactic(auto)]
