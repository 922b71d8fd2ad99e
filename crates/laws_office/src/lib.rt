// No code: a file whose lines end with CR LF means what the same file with LF means. The statements stand in specs/, the proofs in proofs/.
#![tactic(auto)]
