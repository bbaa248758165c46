//! The tables layer: the checks that need no geometry, and the net that they leave.
#![tactic(auto)]

mod chains;
mod edges;
mod marks;
mod pairs;
mod points;
mod ranges;
mod reach;
mod turns;
mod walk;
pub mod wiring;
