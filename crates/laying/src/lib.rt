//! Trying a laying: whether a list of images is a pairing from one checked block to another, and where it fails first.
#![tactic(auto)]

mod matching;
pub mod misfit;
pub mod trial;
