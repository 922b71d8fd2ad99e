// No code: which files are accepted, which line a refusal names, and that an accepted file's policy is proper.
// The statements stand in specs/, the theorems in proofs/.
#![tactic(auto)]
