// The edges of a drawing as lists, and the checks of the shape.
ghost use Rattle.std.specs.Prelude.{◌≡◌, ◌≢◌, ◌<◌, ◌≤◌, ℕ, List, length, pos, ◌<ℤ◌, unsigned_abs, MatchResult};
ghost use Rattle.solid.specs.Limits.{greatest_volume};
ghost use Rattle.solid.specs.Points.{Far, place};
ghost use Rattle.drawing.specs.declared.fault.Cause.TheVariants.{BentFace, LevelFaces};
ghost use Rattle.drawing.specs.Lowest.{Judges};
ghost use Rattle.drawing.specs.Nets.{vector, bend, fold, content};
ghost use Rattle.shape.specs.Edges.{Placed, EdgeList};
ghost use Rattle.shape.specs.Wedges.{Hollow};
ghost use Rattle.shape.specs.Shapes.{Shaped, ShapeRefused};

use drawing::fault::{Cause, Fault};
use solid::{Point, Vector, volume};

/// The edges of a drawing that passed the tables layer, as lists.
#[derive(Clone, Copy)]
pub struct Edges<'a> {
    pub points: &'a [Point],
    /// the index of the point at which each edge starts
    pub starts: &'a [usize],
    pub next: &'a [usize],
    pub opposite: &'a [usize],
    /// the corners, chain by chain
    pub order: &'a [usize],
    /// the first corner of each corner's chain
    pub home: &'a [usize],
    ghost placed: { Placed points.now starts.now },
    ghost nexts: { EdgeList (length starts.now) next.now },
    ghost opposites: { EdgeList (length starts.now) opposite.now },
    ghost orders: { EdgeList (length starts.now) order.now },
    ghost homes: { EdgeList (length starts.now) home.now },
    ghost few: { length starts.now ≤ 480 },
}

impl Edges<'_> {
    ghost use Rattle.shape.specs.Views.{net_of, corner, wedge, HasRounds};

    /// Refuses an edge at which a face is bent, then one at which two faces are level, then a volume that is not positive.
    pub fn check_shape(&self) -> Result<(), Fault>
        ensures { (rounds : List (List ℕ)) → HasRounds self.now rounds → MatchResult result (λ _. Shaped (net_of self.now) rounds) (ShapeRefused (net_of self.now) rounds) }
    {
        self.flat_faces()?;
        self.no_level_faces()?;
        self.positive_volume()
    }

    /// Each edge lies in one plane with the two that follow it; else the lowest edge that does not is refused.
    fn flat_faces(&self) -> Result<(), Fault>
        ensures { Judges BentFace (length self.now.starts.now) (λ e. bend (net_of self.now) e ≡ pos 0) (λ e. bend (net_of self.now) e ≢ pos 0) result }
    {
        let bent = (0..self.starts.len()).position(|e| self.bend(e) != 0);
        Fault::refuse_first(Cause::BentFace, bent)
    }

    /// At each edge two faces meet at an angle; else the lowest edge at which they are level is refused.
    fn no_level_faces(&self) -> Result<(), Fault>
        ensures { Judges LevelFaces (length self.now.starts.now) (λ e. fold (net_of self.now) e ≢ pos 0) (λ e. fold (net_of self.now) e ≡ pos 0) result }
    {
        let level = (0..self.starts.len()).position(|e| self.fold(e) == 0);
        Fault::refuse_first(Cause::LevelFaces, level)
    }

    /// The faces enclose a positive volume; else the drawing as a whole is refused.
    fn positive_volume(&self) -> Result<(), Fault>
        ensures { (rounds : List (List ℕ)) → HasRounds self.now rounds → (let v = content self.now.points.now self.now.starts.now rounds in MatchResult result (λ _. pos 0 <ℤ v) (Hollow v)) }
    {
        if self.content() > 0 {
            Ok(())
        } else {
            Err(Fault {
                cause: Cause::NoVolume,
                place: 0,
            })
        }
    }

    /// The volume that the faces enclose, which is the sum of the wedges.
    fn content(&self) -> i64
        ensures { (rounds : List (List ℕ)) → HasRounds self.now rounds → result ≡ content self.now.points.now self.now.starts.now rounds }
    {
        self.order.iter().map(|e| self.wedge(*e)).sum()
    }

    /// The volume of the first corner of its chain and both ends of the edge `e`.
    fn wedge(&self, e: usize) -> i64
        requires { e < length self.now.starts.now }
        ensures is { result ≡ wedge self.now e }
        ensures bound { unsigned_abs result ≤ greatest_volume }
    {
        volume(
            self.corner(self.home[e]),
            self.corner(e),
            self.corner(self.next[e]),
        )
    }

    /// The volume of the edge `e` and the two that follow it.
    fn bend(&self, e: usize) -> i64
        requires { e < length self.now.starts.now }
        ensures { result ≡ bend (net_of self.now) e }
    {
        let b = self.next[e];
        volume(self.vector(e), self.vector(b), self.vector(self.next[b]))
    }

    /// The volume of the edge `e`, its next edge and the next of its opposite.
    fn fold(&self, e: usize) -> i64
        requires { e < length self.now.starts.now }
        ensures { result ≡ fold (net_of self.now) e }
    {
        volume(
            self.vector(e),
            self.vector(self.next[e]),
            self.vector(self.next[self.opposite[e]]),
        )
    }

    /// The vector of the edge `e`.
    fn vector(&self, e: usize) -> Vector
        requires { e < length self.now.starts.now }
        ensures is { result ≡ vector (net_of self.now) e }
        ensures far { Far result }
    {
        Vector::between(
            self.points[self.starts[e]],
            self.points[self.starts[self.next[e]]],
        )
    }

    /// The place of the point at which the edge `e` starts.
    fn corner(&self, e: usize) -> Vector
        requires { e < length self.now.starts.now }
        ensures is { result ≡ place (corner self.now e) }
        ensures far { Far result }
    {
        Vector::place(self.points[self.starts[e]])
    }
}
