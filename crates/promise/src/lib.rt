#![tactic(auto)]

// What the calls promise (specs/), and the theorems over every list of calls (proofs/); this crate has no code.
