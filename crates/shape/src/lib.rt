//! The shape layer: the faces are flat, no two that meet at an edge are level, and the volume that they enclose is positive.
//! The edges come as lists: the start, the next edge and the opposite of each.
#![tactic(auto)]

pub mod edges;
