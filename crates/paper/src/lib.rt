#![tactic(auto)]

// The 4QL paper's definitions and document 01's marking: no code, only specs/ and what proofs/ shows of them.
