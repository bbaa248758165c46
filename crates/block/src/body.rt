// The checked block. Its fields are private, so that it can be had from `check` alone.
use arrayvec::ArrayVec;
use solid::Point;
use std::marker::Model;

pub mod checking;
pub mod edges;

/// A directed edge of a block, by indices from 0.
// Indices of 16 bits: there are few, and who tries a laying goes through all edges of two blocks again and again.
#[derive(Clone, Copy, Default)]
struct Edge {
    /// the point at which it starts
    start: u16,
    mark: u8,
    next: u16,
    opposite: u16,
}

/// A drawing that passed all checks: its points and its directed edges.
#[derive(Drop)]
pub struct Block {
    points: ArrayVec<Point, 160>,
    edges: ArrayVec<Edge, 480>,
}

// A contract sees a block as its net.
impl Model for Block {
    ghost use Rattle.drawing.specs.Nets.{Net};

    ghost Value = { Net };

    ghost use Rattle.block.specs.Inside.{net_in, IsChecked};

    ghost view = { net_in };

    ghost invariant = { IsChecked };
}
