// Layings of the works' examples. The images were found by a program in another language.
use super::{Drawing, WEDGE, box_of};
use crate::blind::Blind;
use label::both::Pair;
use label::marking::Mark;
use label::measures::Measures;
use label::measuring::Measure;
use laying::misfit::{Flaw, Misfit};
use laying::trial::{lay, lay_by_measure};
use std::alloc::{AllocError, Global};
use std::test::Fail;

const IDENTITY: [usize; 24] = [
    1, 2, 3, 4, 5, 6, 7, 8, 9, 10, 11, 12, 13, 14, 15, 16, 17, 18, 19, 20, 21, 22, 23, 24,
];

/// The box half turned about its height.
const HALF_TURN: [usize; 24] = [
    3, 4, 1, 2, 7, 8, 5, 6, 17, 18, 19, 20, 21, 22, 23, 24, 9, 10, 11, 12, 13, 14, 15, 16,
];

/// A quarter turn, under which the sides of 10 and 20 change places.
const QUARTER_TURN: [usize; 24] = [
    2, 3, 4, 1, 8, 5, 6, 7, 21, 22, 23, 24, 9, 10, 11, 12, 13, 14, 15, 16, 17, 18, 19, 20,
];

/// The wedge onto its mirror image, with steps kept.
const MIRRORED: [usize; 12] = [9, 7, 8, 6, 4, 5, 3, 1, 2, 10, 11, 12];

/// The fourth image is no edge of the wedge.
const BEYOND: [usize; 12] = [1, 2, 3, 13, 5, 6, 7, 8, 9, 10, 11, 12];

/// The images of edges 2 and 3 have changed places.
const SWAPPED: [usize; 12] = [1, 3, 2, 4, 5, 6, 7, 8, 9, 10, 11, 12];

/// The first face is turned, and the others are not.
const TURNED_FACE: [usize; 12] = [2, 3, 1, 4, 5, 6, 7, 8, 9, 10, 11, 12];

/// The six numbers of a label, in a row as the works give them.
// By hand, and no conversion of the type: it keeps the expected values as they are written.
fn numbers(x: Option<Measures>) -> Option<[i64; 6]> {
    x.map(|x| [x.ee, x.eb, x.eb2, x.ec, x.bc, x.volume])
}

fn flaw(cause: Flaw, place: usize) -> Result<(), Misfit> {
    Err(Misfit { cause, place })
}

/// The wedge, or its mirror image: `width` is 10 or -10.
fn wedge_of(heap: Global, width: i64) -> Result<Drawing, AllocError> {
    let mut drawing = Drawing::new(heap);
    drawing.point(0, 0, 0)?;
    drawing.point(width, 0, 0)?;
    drawing.point(0, 20, 0)?;
    drawing.point(0, 0, 30)?;
    for [a, b, c] in WEDGE {
        if width < 0 {
            drawing.face(&[c, b, a])?;
        } else {
            drawing.face(&[a, b, c])?;
        }
    }
    Ok(drawing)
}

#[test]
fn labels_are_the_works_numbers(rt: HostRuntime) -> Result<(), Fail> {
    let block = box_of(rt.alloc(), [30, 30, 30, 30])?.block()?;
    assert_eq!(rt;
        numbers(Measures::at(&block, 1)),
        Some([400, 0, -400, 0, 0, -6000])
    );
    assert_eq!(rt; numbers(Measures::at(&block, 0)), None);
    assert_eq!(rt; numbers(Measures::at(&block, 25)), None);
    let wedge = wedge_of(rt.alloc(), 10)?.block()?;
    assert_eq!(rt;
        numbers(Measures::at(&wedge, 10)),
        Some([500, -400, -100, 100, 0, -6000])
    );
    Ok(())
}

#[test]
fn a_box_lies_on_itself_half_turned(rt: HostRuntime) -> Result<(), Fail> {
    let block = box_of(rt.alloc(), [30, 30, 30, 30])?.block()?;
    assert_eq!(rt; lay_by_measure(&block, &block, &HALF_TURN), Ok(()));
    assert_eq!(rt;
        lay::<Pair<Pair<Measure, Mark>, Mark>>(&block, &block, &HALF_TURN),
        Ok(())
    );
    Ok(())
}

#[test]
fn a_quarter_turn_keeps_marks_and_not_measures(rt: HostRuntime) -> Result<(), Fail> {
    let block = box_of(rt.alloc(), [30, 30, 30, 30])?.block()?;
    assert_eq!(rt; lay::<Mark>(&block, &block, &QUARTER_TURN), Ok(()));
    assert_eq!(rt; lay::<Blind>(&block, &block, &QUARTER_TURN), Ok(()));
    assert_eq!(rt;
        lay_by_measure(&block, &block, &QUARTER_TURN),
        flaw(Flaw::Label, 1)
    );
    assert_eq!(rt;
        lay::<Pair<Mark, Measure>>(&block, &block, &QUARTER_TURN),
        flaw(Flaw::Label, 1)
    );
    Ok(())
}

#[test]
fn a_wedge_does_not_lie_on_its_mirror_image(rt: HostRuntime) -> Result<(), Fail> {
    let wedge = wedge_of(rt.alloc(), 10)?.block()?;
    let mirror = wedge_of(rt.alloc(), -10)?.block()?;
    assert_eq!(rt; lay::<Mark>(&wedge, &mirror, &MIRRORED), Ok(()));
    assert_eq!(rt;
        lay_by_measure(&wedge, &mirror, &MIRRORED),
        flaw(Flaw::Label, 2)
    );
    Ok(())
}

/// What is wrong with images of the wedge on itself.
fn misfit(heap: Global, images: &[usize]) -> Result<Result<(), Misfit>, Fail> {
    let wedge = wedge_of(heap, 10)?.block()?;
    Ok(lay::<Mark>(&wedge, &wedge, images))
}

#[test]
fn images_that_do_not_match(rt: HostRuntime) -> Result<(), Fail> {
    assert_eq!(rt; misfit(rt.alloc(), &HALF_TURN)?, flaw(Flaw::Length, 0));
    assert_eq!(rt; misfit(rt.alloc(), &BEYOND)?, flaw(Flaw::Number, 4));
    assert_eq!(rt; misfit(rt.alloc(), &[7; 12])?, flaw(Flaw::Twice, 2));
    Ok(())
}

#[test]
fn images_that_break_steps(rt: HostRuntime) -> Result<(), Fail> {
    assert_eq!(rt; misfit(rt.alloc(), &SWAPPED)?, flaw(Flaw::Next, 1));
    assert_eq!(rt; misfit(rt.alloc(), &TURNED_FACE)?, flaw(Flaw::Opposite, 1));
    Ok(())
}

#[test]
fn a_wedge_misses_half_of_a_box(rt: HostRuntime) -> Result<(), Fail> {
    let block = box_of(rt.alloc(), [30, 30, 30, 30])?.block()?;
    let wedge = wedge_of(rt.alloc(), 10)?.block()?;
    assert_eq!(rt;
        lay::<Mark>(&wedge, &block, &MIRRORED),
        flaw(Flaw::Missed, 13)
    );
    Ok(())
}
