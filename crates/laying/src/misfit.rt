// Where a laying fails.
ghost use Rattle.std.specs.Prelude.{◌≡◌, Some};
ghost use Rattle.laying.specs.Flaws.{flaw_of, flaw_word};

use drawing::fault::Located;
use drawing::step::Step;
use std::fmt;

/// What keeps a list of images from being a pairing, in the order in which it is looked for.
#[derive(Clone, Copy, PartialEq, Eq, Debug)]
pub enum Flaw {
    /// there are not as many images as the first block has edges
    Length,
    /// an image is 0 or beyond the edges of the second block
    Number,
    /// an edge has the image of an earlier one
    Twice,
    /// an edge of the second block is no image
    Missed,
    /// the next edge does not go to the next edge of the image
    Next,
    /// the opposite does not go to the opposite of the image
    Opposite,
    /// the labels of an edge and its image are not the same
    Label,
}

/// That a step is not kept.
impl From<Step> for Flaw {
    ghost from_gives = { λ step r. r ≡ flaw_of step };

    fn from(step: Step) -> Self {
        match step {
            Step::Along => Flaw::Next,
            Step::Across => Flaw::Opposite,
        }
    }
}

impl fmt::Display for Flaw {
    ghost output = { λ x. Some (flaw_word x) };

    fn fmt<W: fmt::Write>(&self, f: &mut fmt::Formatter<W>) -> fmt::Result {
        match self {
            Flaw::Length => f.write_str("length"),
            Flaw::Number => f.write_str("number"),
            Flaw::Twice => f.write_str("twice"),
            Flaw::Missed => f.write_str("missed"),
            Flaw::Next => f.write_str("next"),
            Flaw::Opposite => f.write_str("opposite"),
            Flaw::Label => f.write_str("label"),
        }
    }
}

/// The first flaw of a laying. Its place is the number of the lowest edge that has the flaw: of the second block where one is
/// missed, else of the first; 0 for the length.
pub type Misfit = Located<Flaw>;
