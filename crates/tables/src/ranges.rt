// The ranges of counts, coordinates and point numbers.
ghost use Rattle.std.specs.Prelude.{◌<◌, ◌≤◌, length, MatchBool, MatchResult, slice_index_or, unsigned_abs};
ghost use Rattle.solid.specs.Points.{Near};
ghost use Rattle.drawing.specs.declared.fault.Cause.TheVariants.{TableCount, Coordinate, PointNumber};
ghost use Rattle.drawing.specs.Lowest.{Judges};
ghost use Rattle.drawing.specs.Nets.{no_point};
ghost use Rattle.drawing.specs.Verdicts.{Counts, CountRefused, Named};

use drawing::fault::{Cause, Fault};
use drawing::record::Corner;
use solid::Point;

/// Refuses counts outside their ranges.
pub(crate) fn counts_in_range(points: usize, corners: usize, faces: usize) -> Result<(), Fault>
    ensures { MatchResult result (λ _. Counts points corners faces) (CountRefused points corners faces) }
{
    let fit = (4..=160).contains(&points)
        && (12..=480).contains(&corners)
        && (4..=160).contains(&faces);
    if fit {
        Ok(())
    } else {
        Err(Fault {
            cause: Cause::TableCount,
            place: 0,
        })
    }
}

fn fits(x: i64) -> bool
    ensures { MatchBool result (unsigned_abs x ≤ 8000) (8000 < unsigned_abs x) }
{
    (-8000..=8000).contains(&x)
}

fn is_near(p: Point) -> bool
    ensures { MatchBool result (Near p) (Near p → ⊥) }
{
    fits(p.x) && fits(p.y) && fits(p.z)
}

/// Refuses the lowest point with a coordinate outside its range.
pub(crate) fn points_in_range(points: &[Point]) -> Result<(), Fault>
    ensures { Judges Coordinate (length points.now) (λ q. Near (slice_index_or points.now q no_point)) (λ q. Near (slice_index_or points.now q no_point) → ⊥) result }
{
    let far = points.iter().position(|p| !is_near(*p));
    Fault::refuse_first(Cause::Coordinate, far)
}

/// Refuses the lowest corner that names no point.
pub(crate) fn point_numbers_in_range(point_count: usize, corners: &[Corner]) -> Result<(), Fault>
    ensures { Judges PointNumber (length corners.now) (Named corners.now point_count) (λ k. Named corners.now point_count k → ⊥) result }
{
    let unnamed = corners
        .iter()
        .position(|c| c.point == 0 || c.point > point_count);
    Fault::refuse_first(Cause::PointNumber, unnamed)
}
