// No code: the user's three demands, in the user's order and words. proofs/Demands.antt is the page to read first;
// specs/ says what its words mean.
#![tactic(auto)]
