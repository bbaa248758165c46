// The edges of a block, by index from 0. An index stays a number: a type for it would be made from a number at each call, by the same test.
ghost use Rattle.std.specs.Prelude.{◌≡◌, ◌<◌};
ghost use Rattle.solid.specs.Points.{Near, Far};
ghost use Rattle.drawing.specs.Lists.{at};
ghost use Rattle.drawing.specs.Nets.{edges, start, next, opposite, step, point_at, vector};
ghost use Rattle.block.specs.Checked.{Checked};

use super::Block;
use drawing::step::Step;
use solid::{Point, Vector};

impl Block {
    /// How many directed edges there are.
    pub fn edge_count(&self) -> usize
        ensures is { result ≡ edges self.now }
        ensures checked { Checked self.now }
    {
        self.edges.len()
    }

    /// The edge that follows on the same face. For the crates above: the block is to have the edge.
    pub fn next(&self, edge: usize) -> usize
        requires { edge < edges self.now }
        ensures is { result ≡ next self.now edge }
        ensures within { result < edges self.now }
    {
        usize::from(self.edges[edge].next)
    }

    /// The edge between the same points, the other way. For the crates above: the block is to have the edge.
    pub fn opposite(&self, edge: usize) -> usize
        requires { edge < edges self.now }
        ensures is { result ≡ opposite self.now edge }
        ensures within { result < edges self.now }
    {
        usize::from(self.edges[edge].opposite)
    }

    /// Where a step from the edge leads. For the crates above: the block is to have the edge.
    pub fn step(&self, way: Step, edge: usize) -> usize
        requires { edge < edges self.now }
        ensures is { result ≡ step self.now way edge }
        ensures within { result < edges self.now }
    {
        match way {
            Step::Along => self.next(edge),
            Step::Across => self.opposite(edge),
        }
    }

    /// The mark of the corner. For the crates above: the block is to have the edge.
    pub fn mark(&self, edge: usize) -> u8
        requires { edge < edges self.now }
        ensures { result ≡ at self.now.marks edge }
    {
        self.edges[edge].mark
    }

    /// The index of the point at which the edge starts. For the crates above: the block is to have the edge.
    pub fn start(&self, edge: usize) -> usize
        requires { edge < edges self.now }
        ensures { result ≡ start self.now edge }
    {
        usize::from(self.edges[edge].start)
    }

    /// The point at which the edge starts. For the crates above: the block is to have the edge.
    pub fn start_point(&self, edge: usize) -> Point
        requires { edge < edges self.now }
        ensures is { result ≡ point_at self.now (start self.now edge) }
        ensures near { Near result }
    {
        self.points[usize::from(self.edges[edge].start)]
    }

    /// From the start of the edge to its end. For the crates above: the block is to have the edge.
    pub fn vector(&self, edge: usize) -> Vector
        requires { edge < edges self.now }
        ensures is { result ≡ vector self.now edge }
        ensures far { Far result }
    {
        Vector::between(self.start_point(edge), self.start_point(self.next(edge)))
    }
}
