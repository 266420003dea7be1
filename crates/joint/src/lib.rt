#![tactic(auto)]

// What the composition of two pairs is (specs/), and what holds of it (proofs/). The crate `composition` writes it; there is no code here.
