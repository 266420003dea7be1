#![tactic(auto)]

// What the one form of a proof file is (specs/), and what holds of it (proofs/). The crate `canonical` writes it; there is no code here.
