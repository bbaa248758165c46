//! What it is for an edge table and a register to hold these blocks (specs), and what follows from it (proofs).
#![tactic(auto)]
