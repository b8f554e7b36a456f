#![tactic(auto)]

// No code: what is said of a public entry, which each crate states of its own (proofs/Entries.antt there).
