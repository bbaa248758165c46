// Why a call of a catalogue is refused, and where.
ghost use Rattle.std.specs.Prelude.{◌≡◌, Some};
ghost use Rattle.calls.specs.Reasons.{number, layer, layer_name, place};

use drawing::fault::{Fault, Layer as DrawingLayer};
use std::fmt;

/// The group of checks that a refusal belongs to.
#[derive(Clone, Copy, PartialEq, Eq, Debug)]
pub enum Layer {
    /// one of those of a drawing
    Drawing(DrawingLayer),
    Catalogue,
}

impl fmt::Display for Layer {
    ghost output = { λ x. Some (layer_name x) };

    fn fmt<W: fmt::Write>(&self, f: &mut fmt::Formatter<W>) -> fmt::Result {
        match self {
            Layer::Drawing(layer) => layer.fmt(f),
            Layer::Catalogue => f.write_str("catalogue"),
        }
    }
}

/// A refusal: what it says, with its place.
// No `Located`: an impl of `From<Fault>` has to name a type of this crate.
#[derive(Clone, Copy, PartialEq, Eq, Debug)]
pub enum Refusal {
    /// the drawing fails one of the twelve checks
    Drawing(Fault),
    /// an entry number names no block: the first of the call's numbers, or the second
    NoEntry(usize),
    /// an edge number is 0 or beyond its block: that number
    NoEdge(usize),
    /// a buffer is shorter than the edge count of the first block: the first of the call's buffers, or the second
    ShortBuffer(usize),
    /// the catalogue has all the blocks that it can have, or fewer free edges than the block: the count of the free edges
    Full(usize),
}

impl Refusal {
    /// Its number, from 1.
    pub fn number(self) -> u8
        ensures { result ≡ number self }
    {
        match self {
            Refusal::Drawing(fault) => fault.cause.number(),
            Refusal::NoEntry(_) => 13,
            Refusal::NoEdge(_) => 14,
            Refusal::ShortBuffer(_) => 15,
            Refusal::Full(_) => 16,
        }
    }

    /// The layer that it belongs to.
    pub fn layer(self) -> Layer
        ensures { result ≡ layer self }
    {
        match self {
            Refusal::Drawing(fault) => Layer::Drawing(fault.cause.layer()),
            _ => Layer::Catalogue,
        }
    }

    /// Where it is.
    pub fn place(self) -> usize
        ensures { result ≡ place self }
    {
        match self {
            Refusal::Drawing(fault) => fault.place,
            Refusal::NoEntry(place)
            | Refusal::NoEdge(place)
            | Refusal::ShortBuffer(place)
            | Refusal::Full(place) => place,
        }
    }
}

impl From<Fault> for Refusal {
    ghost use Rattle.std.specs.Prelude.{◌≡◌};
    ghost use Rattle.calls.specs.Reasons.{of_drawing};

    ghost from_gives = { λ fault r. r ≡ of_drawing fault };

    fn from(fault: Fault) -> Self {
        Self::Drawing(fault)
    }
}
