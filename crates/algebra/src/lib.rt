//! Identities of integer polynomials, and bounds of machine arithmetic: proofs only.
#![tactic(auto)]
