// Each point is used, and none is there twice.
ghost use Rattle.std.specs.Prelude.{◌≡◌, ℕ, ◌<◌, ◌≤◌, length, Decides, MatchOption, MatchResult, slice_index_or};
ghost use Rattle.drawing.specs.declared.fault.Cause.TheVariants.{LoosePoint, DoublePoint};
ghost use Rattle.drawing.specs.Lowest.{Judges};
ghost use Rattle.drawing.specs.Nets.{no_point};
ghost use Rattle.drawing.specs.Verdicts.{Named, Used, Repeated};
ghost use Rattle.solid.specs.Points.{Near};
ghost use Rattle.tables.specs.Buckets.{bucket_of, bucket_at, Last, LinkedTo};
ghost use Rattle.tables.specs.Marked.{Marks};
ghost use Rattle.tables.specs.Stages.{Pointed, PointsRefused};

use crate::marks::all_marked;
use crate::ranges::point_numbers_in_range;
use drawing::fault::{Cause, Fault};
use drawing::record::Corner;
use solid::Point;

// Points are raw until all checks are made: no type says that they are few and near.

/// Marks the points that the corners name.
fn named_points(corners: &[Corner]) -> [bool; 160]
    requires { (k : ℕ) → k < length corners.now → Named corners.now 160 k }
    ensures { Marks 160 (Used corners.now) result }
{
    let mut named = [false; 160];
    for corner in corners {
        named[corner.point - 1] = true;
    }
    named
}

/// Refuses the first point that no corner names.
pub(crate) fn all_used(point_count: usize, corners: &[Corner]) -> Result<(), Fault>
    requires count { point_count ≤ 160 }
    requires named { (k : ℕ) → k < length corners.now → Named corners.now point_count k }
    ensures { Judges LoosePoint point_count (Used corners.now) (λ q. Used corners.now q → ⊥) result }
{
    let named = named_points(corners);
    all_marked(&named, point_count, Cause::LoosePoint)
}

/// The bucket of a point, one of 251.
fn bucket(p: Point) -> usize
    requires { Near p }
    ensures is { result ≡ bucket_of p }
    ensures below { result < 251 }
{
    let x = (p.x + 8000) as usize;
    let y = (p.y + 8000) as usize;
    let z = (p.z + 8000) as usize;
    (x + 40 * y + 94 * z) % 251
}

/// Whether an earlier point has the coordinates of the point `p`. The last before it in its bucket is `last`.
fn is_repeated(points: &[Point], links: &[Option<usize>], last: Option<usize>, p: usize) -> bool
    requires within { (p < length points.now) × (p < length links.now) }
    requires linked { LinkedTo points.now p links.now }
    requires last { Last points.now p (bucket_at points.now p) last }
    ensures { Decides result (Repeated points.now p) }
{
    let mut earlier = last;
    while let Some(q) = earlier {
        if points[q] == points[p] {
            return true;
        }
        earlier = links[q];
    }
    false
}

/// The first point that has the coordinates of an earlier one.
fn first_repeated(points: &[Point]) -> Option<usize>
    requires count { length points.now ≤ 160 }
    requires near { (q : ℕ) → q < length points.now → Near (slice_index_or points.now q no_point) }
    ensures { MatchOption result ((q : ℕ) → q < length points.now → Repeated points.now q → ⊥) (λ q. (q < length points.now) × Repeated points.now q × ((k : ℕ) → k < q → Repeated points.now k → ⊥)) }
{
    // buckets by hand: a rule of the project is that the checks allocate nothing, so that there is no `HashSet`
    let mut heads = [None; 251];
    let mut links = [None; 160];
    for (p, point) in points.iter().enumerate() {
        let b = bucket(*point);
        if is_repeated(points, &links, heads[b], p) {
            return Some(p);
        }
        links[p] = heads[b];
        heads[b] = Some(p);
    }
    None
}

/// Refuses the first point that has the coordinates of an earlier one.
pub(crate) fn all_distinct(points: &[Point]) -> Result<(), Fault>
    requires count { length points.now ≤ 160 }
    requires near { (q : ℕ) → q < length points.now → Near (slice_index_or points.now q no_point) }
    ensures { Judges DoublePoint (length points.now) (λ q. Repeated points.now q → ⊥) (Repeated points.now) result }
{
    Fault::refuse_first(Cause::DoublePoint, first_repeated(points))
}

/// Refuses a corner that names no point, then a point that none names, then one that is there twice.
pub(crate) fn check_points(points: &[Point], corners: &[Corner]) -> Result<(), Fault>
    requires count { length points.now ≤ 160 }
    requires near { (q : ℕ) → q < length points.now → Near (slice_index_or points.now q no_point) }
    ensures { MatchResult result (λ _. Pointed points.now corners.now) (PointsRefused points.now corners.now) }
{
    point_numbers_in_range(points.len(), corners)?;
    all_used(points.len(), corners)?;
    all_distinct(points)?;
    Ok(())
}
