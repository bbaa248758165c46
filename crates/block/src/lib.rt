//! The checked block: a drawing that passed all twelve checks.
#![tactic(auto)]

pub mod body;

pub use body::Block;
pub use body::checking::check;
