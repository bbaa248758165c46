//! Pairings and congruences: what they are (specs), and what holds of them (proofs). There is no code here.
#![tactic(auto)]
