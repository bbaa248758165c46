// What people are told of a refusal: what is wrong, where, and what the drafter can do.
ghost use Rattle.std.specs.Prelude.{◌≡◌};
ghost use Rattle.replies.specs.Advice.{subject_of};

use drawing::fault::{Cause, Fault};
use std::fmt;

/// The record that a refusal speaks of, by its number.
#[derive(Clone, Copy)]
pub enum Subject {
    /// the drawing as a whole, and no one record
    Drawing,
    Point(usize),
    Corner(usize),
    Face(usize),
    Edge(usize),
}

impl From<Fault> for Subject {
    ghost from_gives = { λ fault r. r ≡ subject_of fault };

    fn from(fault: Fault) -> Self {
        let place = fault.place;
        // a place is a number in the words for programs, and 0 there is the drawing
        if place == 0 {
            return Subject::Drawing;
        }
        match fault.cause {
            Cause::TableCount | Cause::NoVolume => Subject::Drawing,
            Cause::Coordinate | Cause::LoosePoint | Cause::DoublePoint | Cause::PinchedPoint =>
                Subject::Point(place),
            Cause::PointNumber => Subject::Corner(place),
            Cause::BrokenChain => Subject::Face(place),
            Cause::UnmatchedEdge | Cause::UnreachedEdge | Cause::BentFace | Cause::LevelFaces =>
                Subject::Edge(place),
        }
    }
}

// The word alone: who writes it says where the number stands.
impl fmt::Display for Subject {
    fn fmt<W: fmt::Write>(&self, f: &mut fmt::Formatter<W>) -> fmt::Result {
        match self {
            Subject::Drawing => f.write_str("drawing"),
            Subject::Point(_) => f.write_str("point"),
            Subject::Corner(_) => f.write_str("corner"),
            Subject::Face(_) => f.write_str("face"),
            Subject::Edge(_) => f.write_str("edge"),
        }
    }
}

/// What is wrong, and what the drafter can do.
#[derive(Clone, Copy)]
pub struct Advice(pub Fault);

impl fmt::Display for Advice {
    fn fmt<W: fmt::Write>(&self, f: &mut fmt::Formatter<W>) -> fmt::Result {
        let Advice(fault) = self;
        match fault.cause {
            Cause::TableCount => f.write_str(
                "a table is too short or too long; give 4 to 160 points, 12 to 480 corners and 4 to 160 faces",
            ),
            Cause::Coordinate => f.write_str(
                "a coordinate is outside -8000 to 8000; move the point, or see that it is given in millimetres",
            ),
            Cause::BrokenChain if fault.place == 0 => f.write_str(
                "a corner is in no face; let a chain run through it, or leave it out",
            ),
            Cause::BrokenChain => f.write_str(
                "its chain leaves the corner table, meets a corner twice or has fewer than three corners; mend its first corner, or the next of its corners",
            ),
            Cause::PointNumber => f.write_str(
                "it names point 0 or one beyond the table; name a point that is there",
            ),
            Cause::LoosePoint => f.write_str(
                "no corner names it; let a face use it, or leave it out",
            ),
            Cause::DoublePoint => f.write_str(
                "an earlier point has the same coordinates; name that one in its place, or move one of the two",
            ),
            Cause::UnmatchedEdge => f.write_str(
                "its ends are one point, or faces do not run between them exactly once each way; let two faces share it, one in each direction",
            ),
            Cause::PinchedPoint => f.write_str(
                "the block touches itself in this point alone; draw the parts asunder, or join them by more than a point",
            ),
            Cause::UnreachedEdge => f.write_str(
                "it is on another piece than edge 1; hand over each piece as a drawing of its own",
            ),
            Cause::BentFace => f.write_str(
                "four corners of its face, from here on, are not in one plane; move a point, or divide the face",
            ),
            Cause::LevelFaces => f.write_str(
                "the two faces along it are level, or the corner at its end is straight; make one face of the two, or leave that corner out",
            ),
            Cause::NoVolume => f.write_str(
                "the volume is zero or less; let each chain run anticlockwise, seen from outside",
            ),
        }
    }
}
