#![tactic(auto)]

// The three demands about the public entries: no code, only what proofs/ shows of their promises.
