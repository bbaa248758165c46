//! The last two sound drawings, and what is asked of them.
#![tactic(auto)]

pub mod recent;
