// What a line says.
ghost use Rattle.std.specs.Prelude.{◌≡◌};
ghost use Rattle.lines.specs.Lines.{point_fields, corner_fields, face_fields, one, line_of};

use crate::field::{Field, value};
use crate::line::{Line, Malformed};
use crate::word::Words;
use drawing::record::{Corner, Face};
use itertools::Itertools;
use solid::Point;

/// The point that three words write.
fn point_fields(words: Words) -> Option<Point>
    ensures { result ≡ point_fields words.entry }
{
    let (x, y, z) = words.collect_tuple()?;
    Some(Point {
        x: value(x)?,
        y: value(y)?,
        z: value(z)?,
    })
}

/// The corner that three words write.
fn corner_fields(words: Words) -> Option<Corner>
    ensures { result ≡ corner_fields words.entry }
{
    let (point, mark, next) = words.collect_tuple()?;
    Some(Corner {
        point: value(point)?,
        mark: value(mark)?,
        next: value(next)?,
    })
}

/// The face that one word writes.
fn face_fields(words: Words) -> Option<Face>
    ensures { result ≡ face_fields words.entry }
{
    Some(Face {
        first: only_field(words)?,
    })
}

/// The value that one word writes.
fn only_field<T: Field>(words: Words) -> Option<T>
where
    T::Err: Drop,
    ensures { result ≡ one T.value_of words.entry }
{
    let (word,) = words.collect_tuple()?;
    value(word)
}

/// What a line says: its first word is the command, and the others are its fields.
pub fn read_line(text: &[u8]) -> Result<Line, Malformed>
    ensures { result ≡ line_of text.now }
{
    let mut words = Words::new(text);
    match words.next().unwrap_or(b"") {
        // no words, or a remark
        [] | [b'#', ..] => Ok(Line::Blank),
        b"p" => point_fields(words)
            .map(Line::Point)
            .ok_or(Malformed::PointFields),
        b"c" => corner_fields(words)
            .map(Line::Corner)
            .ok_or(Malformed::CornerFields),
        b"f" => face_fields(words)
            .map(Line::Face)
            .ok_or(Malformed::FaceFields),
        b"check" => match words.next() {
            None => Ok(Line::Check),
            Some(_) => Err(Malformed::CheckFields),
        },
        b"label" => only_field(words)
            .map(Line::Label)
            .ok_or(Malformed::LabelFields),
        b"i" => only_field(words)
            .map(Line::Image)
            .ok_or(Malformed::ImageFields),
        b"lay" => only_field(words).map(Line::Lay).ok_or(Malformed::LayFields),
        _ => Err(Malformed::Command),
    }
}
