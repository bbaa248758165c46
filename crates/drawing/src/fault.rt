// What is wrong with a drawing, and where.
ghost use Rattle.std.specs.Prelude.{◌≡◌, ◌+◌, ◌<◌, ◌^◌, Some, IfSome};
ghost use Rattle.drawing.specs.Causes.{number, layer, layer_name};
ghost use Rattle.drawing.specs.Lowest.{refusal};

use std::fmt;

/// The group of checks that a refusal belongs to.
#[derive(Clone, Copy, PartialEq, Eq, Debug)]
pub enum Layer {
    Tables,
    Shape,
}

impl fmt::Display for Layer {
    ghost output = { λ x. Some (layer_name x) };

    fn fmt<W: fmt::Write>(&self, f: &mut fmt::Formatter<W>) -> fmt::Result {
        match self {
            Layer::Tables => f.write_str("tables"),
            Layer::Shape => f.write_str("shape"),
        }
    }
}

/// What a refusal says, in the order of the checks, which are numbered from 1.
#[derive(Clone, Copy, PartialEq, Eq, Debug)]
pub enum Cause {
    TableCount = 1,
    Coordinate,
    BrokenChain,
    PointNumber,
    LoosePoint,
    DoublePoint,
    UnmatchedEdge,
    PinchedPoint,
    UnreachedEdge,
    BentFace,
    LevelFaces,
    NoVolume,
}

impl Cause {
    /// The number of the check, from 1.
    pub fn number(self) -> u8
        ensures { result ≡ number self }
    {
        self as u8
    }

    /// The layer of the check.
    pub fn layer(self) -> Layer
        ensures { result ≡ layer self }
    {
        match self {
            Cause::BentFace | Cause::LevelFaces | Cause::NoVolume => Layer::Shape,
            _ => Layer::Tables,
        }
    }
}

/// What is wrong, and where. What can be wrong is an enum of each layer's own.
// A rule of the project: tables and places are the works' numbers, from 1, and 0 is none.
#[derive(Clone, Copy, PartialEq, Eq, Debug)]
pub struct Located<C> {
    pub cause: C,
    /// the number of the record that is wrong, or 0 where no one record is
    pub place: usize,
}

/// A refusal of a drawing.
pub type Fault = Located<Cause>;

impl<C: Copy> Located<C> {
    /// Refuses the record at this index, the first that is wrong, if there is one.
    /// For the crates above: its number is to fit a place.
    pub fn refuse_first(cause: C, index: Option<usize>) -> Result<(), Self>
        requires { IfSome index (λ k. k + 1 < 2 ^ 64) }
        ensures { result ≡ refusal cause index }
    {
        match index {
            Some(k) => Err(Located {
                cause,
                place: k + 1,
            }),
            None => Ok(()),
        }
    }
}
