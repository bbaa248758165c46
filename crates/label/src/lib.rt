//! What makes two edges alike: the label kinds.
#![tactic(auto)]

pub mod both;
pub mod kind;
pub mod marking;
pub mod measures;
pub mod measuring;
