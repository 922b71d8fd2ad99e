// No code: reading the filled text gives the same table, and filling it again the same text. The statements stand in specs/, the proofs in proofs/.
#![tactic(auto)]
