// What a line says.
use crate::kind::KindName;
use drawing::record::{Corner, Face};
use solid::Point;
use std::fmt;

/// A line that was read.
#[derive(Clone, Copy)]
pub enum Line {
    Point(Point),
    Corner(Corner),
    Face(Face),
    Check,
    /// what the edge of this number measures
    Label(usize),
    /// the number of the image of one edge more
    Image(usize),
    /// whether the images are a pairing under this kind
    Lay(KindName),
    /// an empty line or a remark
    Blank,
}

/// What was expected where a line is of no known form.
#[derive(Clone, Copy)]
pub enum Malformed {
    Command,
    PointFields,
    CornerFields,
    FaceFields,
    CheckFields,
    LabelFields,
    ImageFields,
    LayFields,
}

impl fmt::Display for Malformed {
    fn fmt<W: fmt::Write>(&self, f: &mut fmt::Formatter<W>) -> fmt::Result {
        match self {
            Malformed::Command => f.write_str(
                "expected a line that begins with p, c, f, check, label, i, lay or #",
            ),
            Malformed::PointFields => f.write_str(
                "expected p X Y Z with whole numbers of 64 bits, signed",
            ),
            Malformed::CornerFields => f.write_str(
                "expected c POINT MARK NEXT with whole numbers of 64 bits, and MARK from 0 to 255",
            ),
            Malformed::FaceFields => f.write_str("expected f FIRST with a whole number of 64 bits"),
            Malformed::CheckFields => f.write_str("expected check with nothing after it"),
            Malformed::LabelFields => f.write_str(
                "expected label EDGE with a whole number of 64 bits",
            ),
            Malformed::ImageFields => f.write_str(
                "expected i IMAGE with a whole number of 64 bits",
            ),
            Malformed::LayFields => f.write_str(
                "expected lay KIND with KIND measure, mark or both",
            ),
        }
    }
}
