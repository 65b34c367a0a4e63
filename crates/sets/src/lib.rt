#![tactic(auto)]

// Sets of numbers: no code, only what proofs speak of.
