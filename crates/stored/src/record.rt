// One record of an edge table.
ghost use Rattle.std.specs.Prelude.{◌≡◌, ◌<◌};
ghost use Rattle.drawing.specs.Nets.{edges};
ghost use Rattle.stored.specs.Records.{blank_edge, step_of, Holds};

use crate::blanking::Blank;
use block::Block;
use drawing::step::Step;
use label::kind::Kind;
use solid::Point;

/// A directed edge of an entered block. Edges are told by their index in the block, from 0.
#[derive(Clone, Copy)]
pub struct Edge<L> {
    /// the index of the point at which it starts
    pub point: usize,
    /// and where that point lies
    pub place: Point,
    pub mark: u8,
    pub next: usize,
    pub opposite: usize,
    /// the lowest running number in its part, or 0 where it has none yet; running numbers count the edges from 1, through all blocks
    // A rule of the project: running numbers are from 1, and a catalogue answers them.
    pub part: usize,
    pub label: L,
}

impl<L> Edge<L> {
    /// A record to fill a table with that is to be lent to a catalogue.
    pub fn blank<K: Kind<Label = L> + Blank>() -> Self
        ensures { result ≡ blank_edge K.Blank.blank }
    {
        Edge {
            point: 0,
            place: Point::default(),
            mark: 0,
            next: 0,
            opposite: 0,
            part: 0,
            label: K::blank(),
        }
    }

    /// Where a step from the edge leads.
    pub fn step(&self, way: Step) -> usize
        ensures { result ≡ step_of way self.now }
    {
        match way {
            Step::Along => self.next,
            Step::Across => self.opposite,
        }
    }
}

/// The record of an edge of a block, which stands in no part yet. For the crates above: the block is to have that edge.
pub fn record_of<K: Kind>(block: &Block, edge: usize) -> Edge<K::Label>
    requires { edge < edges block.now }
    ensures holds { Holds K.Kind.label block.now edge result }
    ensures part { result.part ≡ 0 }
{
    Edge {
        point: block.start(edge),
        place: block.start_point(edge),
        mark: block.mark(edge),
        next: block.next(edge),
        opposite: block.opposite(edge),
        part: 0,
        label: K::make(block, edge),
    }
}
