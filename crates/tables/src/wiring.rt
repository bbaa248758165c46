// All checks of the tables layer, in order.
ghost use Rattle.std.specs.Prelude.{◌≡◌, ℕ, ◌<◌, ◌≤◌, length, take, MatchResult};
ghost use Rattle.drawing.specs.Nets.{starts_of};
ghost use Rattle.drawing.specs.Verdicts.{tables, Named, Refused};
ghost use Rattle.tables.specs.Wirings.{Wired};

use crate::chains::{next_edges, walk_chains};
use crate::edges::Seams;
use crate::points::check_points;
use crate::ranges::{counts_in_range, points_in_range};
use arrayvec::ArrayVec;
use drawing::fault::Fault;
use drawing::record::{Corner, Face};
use solid::Point;

/// The edges of a drawing that passed, in lists with a place for each corner; the places beyond are free.
// Lists, and no list of records: each comes from a check of its own, and a record would have holes until the last.
// Arrays: who has a wiring may copy it, and an `ArrayVec` cannot be copied.
#[derive(Clone, Copy)]
pub struct Wiring {
    /// the index of the point at which each edge starts
    pub starts: [usize; 480],
    pub next: [usize; 480],
    pub opposite: [usize; 480],
    /// the corners, chain by chain
    pub order: [usize; 480],
    /// the first corner of each corner's chain
    pub home: [usize; 480],
}

/// The index of the point at which the edge of each corner starts.
fn start_points(corners: &[Corner]) -> ArrayVec<usize, 480>
    requires few { length corners.now ≤ 480 }
    requires named { (k : ℕ) → k < length corners.now → Named corners.now 160 k }
    ensures { result.items ≡ starts_of corners.now }
{
    let mut starts = ArrayVec::new();
    for c in corners {
        starts.push(c.point - 1);
    }
    starts
}

/// Puts the items of a list into the first places.
fn fill(places: &mut [usize; 480], list: &ArrayVec<usize, 480>)
    ensures { take (length list.now.items) places.new ≡ list.now.items }
{
    places[..list.len()].copy_from_slice(list.as_slice());
}

/// Makes the checks of the tables, and answers the edges, or the first check that fails with its place.
pub fn wire(points: &[Point], corners: &[Corner], faces: &[Face]) -> Result<Wiring, Fault>
    ensures { MatchResult result (Wired (tables points.now corners.now faces.now)) (Refused (tables points.now corners.now faces.now)) }
{
    counts_in_range(points.len(), corners.len(), faces.len())?;
    points_in_range(points)?;
    let chains = walk_chains(corners, faces)?;
    let next = next_edges(corners, chains.home.as_slice());
    check_points(points, corners)?;
    let starts = start_points(corners);
    let seams = Seams {
        points: points.len(),
        starts: starts.as_slice(),
        next: next.as_slice(),
    };
    let opposite = seams.join()?;
    let mut wiring = Wiring {
        starts: [0; 480],
        next: [0; 480],
        opposite: [0; 480],
        order: [0; 480],
        home: [0; 480],
    };
    fill(&mut wiring.starts, &starts);
    fill(&mut wiring.next, &next);
    fill(&mut wiring.opposite, &opposite);
    fill(&mut wiring.order, &chains.order);
    fill(&mut wiring.home, &chains.home);
    Ok(wiring)
}
