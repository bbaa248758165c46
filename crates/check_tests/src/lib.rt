//! The works' own examples, put through the drawing checks and tried as layings.
#![tactic(auto)]

pub mod blind;
#[cfg(test)]
mod tests;
