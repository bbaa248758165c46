mod layings;

use block::{Block, check};
use drawing::fault::{Cause, Fault};
use drawing::record::{Corner, Face};
use solid::Point;
use std::alloc::{AllocError, Global};
use std::test::Fail;

/// Three tables.
#[derive(Drop)]
struct Drawing {
    points: Vec<Point>,
    corners: Vec<Corner>,
    faces: Vec<Face>,
}

const BOX: [[usize; 4]; 6] = [
    [1, 4, 3, 2],
    [5, 6, 7, 8],
    [1, 2, 6, 5],
    [2, 3, 7, 6],
    [3, 4, 8, 7],
    [4, 1, 5, 8],
];

const WEDGE: [[usize; 3]; 4] = [[1, 3, 2], [1, 2, 4], [1, 4, 3], [2, 3, 4]];

impl Drawing {
    fn new(heap: Global) -> Self {
        Drawing {
            points: Vec::new(heap),
            corners: Vec::new(heap),
            faces: Vec::new(heap),
        }
    }

    fn point(&mut self, x: i64, y: i64, z: i64) -> Result<(), AllocError> {
        self.points.push(Point { x, y, z })?;
        Ok(())
    }

    fn corner(&mut self, point: usize, next: usize) -> Result<(), AllocError> {
        self.corners.push(Corner {
            point,
            mark: 0,
            next,
        })?;
        Ok(())
    }

    /// One face more, with these corner points.
    fn face(&mut self, chain: &[usize]) -> Result<(), AllocError> {
        let first = self.corners.len().saturating_add(1);
        self.faces.push(Face { first })?;
        let Some((last, others)) = chain.split_last() else {
            return Ok(());
        };
        for point in others {
            let next = self.corners.len().saturating_add(2);
            self.corner(*point, next)?;
        }
        self.corner(*last, 0)
    }

    /// The corner points of a box 10 x 20, whose upper four are this high.
    fn box_points(&mut self, heights: [i64; 4]) -> Result<(), AllocError> {
        for z in [[0, 0, 0, 0], heights] {
            self.point(0, 0, z[0])?;
            self.point(10, 0, z[1])?;
            self.point(10, 20, z[2])?;
            self.point(0, 20, z[3])?;
        }
        Ok(())
    }

    /// The checked block, or the refusal.
    fn block(&self) -> Result<Block, Fault> {
        check(
            self.points.as_slice(),
            self.corners.as_slice(),
            self.faces.as_slice(),
        )
    }

    /// The number of edges, or the refusal.
    fn verdict(&self) -> Result<usize, Fault> {
        Ok(self.block()?.edge_count())
    }
}

/// A box whose upper four points are this high.
fn box_of(heap: Global, heights: [i64; 4]) -> Result<Drawing, AllocError> {
    let mut drawing = Drawing::new(heap);
    drawing.box_points(heights)?;
    for chain in BOX {
        drawing.face(&chain)?;
    }
    Ok(drawing)
}

fn refused(cause: Cause, place: usize) -> Result<usize, Fault> {
    Err(Fault { cause, place })
}

#[test]
fn a_box_is_sound(rt: HostRuntime) -> Result<(), Fail> {
    assert_eq!(rt; box_of(rt.alloc(), [30, 30, 30, 30])?.verdict(), Ok(24));
    Ok(())
}

#[test]
fn a_box_turned_inside_out_has_no_volume(rt: HostRuntime) -> Result<(), Fail> {
    let mut drawing = Drawing::new(rt.alloc());
    drawing.box_points([30, 30, 30, 30])?;
    for [a, b, c, d] in BOX {
        drawing.face(&[d, c, b, a])?;
    }
    assert_eq!(rt; drawing.verdict(), refused(Cause::NoVolume, 0));
    Ok(())
}

#[test]
fn a_box_may_be_8000_high_and_no_higher(rt: HostRuntime) -> Result<(), Fail> {
    let high = box_of(rt.alloc(), [8000, 8000, 8000, 8000])?;
    assert_eq!(rt; high.verdict(), Ok(24));
    let higher = box_of(rt.alloc(), [8001, 8001, 8001, 8001])?;
    assert_eq!(rt; higher.verdict(), refused(Cause::Coordinate, 5));
    Ok(())
}

#[test]
fn a_raised_point_bends_a_face(rt: HostRuntime) -> Result<(), Fail> {
    let bent = box_of(rt.alloc(), [30, 30, 31, 30])?;
    assert_eq!(rt; bent.verdict(), refused(Cause::BentFace, 5));
    Ok(())
}

#[test]
fn a_top_that_is_cut_is_level(rt: HostRuntime) -> Result<(), Fail> {
    let mut drawing = Drawing::new(rt.alloc());
    drawing.box_points([30, 30, 30, 30])?;
    drawing.face(&BOX[0])?;
    drawing.face(&[5, 6, 7])?;
    drawing.face(&[5, 7, 8])?;
    for chain in BOX.iter().skip(2) {
        drawing.face(chain)?;
    }
    assert_eq!(rt; drawing.verdict(), refused(Cause::LevelFaces, 7));
    Ok(())
}

#[test]
fn two_wedges_that_share_a_point_are_pinched(rt: HostRuntime) -> Result<(), Fail> {
    let mut drawing = Drawing::new(rt.alloc());
    drawing.point(0, 0, 0)?;
    for s in [1, -1] {
        drawing.point(10 * s, 0, 0)?;
        drawing.point(0, 20 * s, 0)?;
        drawing.point(0, 0, 30 * s)?;
    }
    for chain in WEDGE {
        drawing.face(&chain)?;
    }
    for [a, b, c] in WEDGE {
        drawing.face(&[mirrored(c), mirrored(b), mirrored(a)])?;
    }
    assert_eq!(rt; drawing.verdict(), refused(Cause::PinchedPoint, 1));
    Ok(())
}

/// The number of the point opposite point 1, which both wedges share.
fn mirrored(point: usize) -> usize {
    if point == 1 {
        1
    } else {
        point.saturating_add(3)
    }
}

#[test]
fn no_tables_are_too_short(rt: HostRuntime) {
    assert_eq!(rt;
        Drawing::new(rt.alloc()).verdict(),
        refused(Cause::TableCount, 0)
    );
}
