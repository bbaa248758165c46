// The six numbers of the measure label.
ghost use Rattle.std.specs.Prelude.{Some};
ghost use Rattle.label.specs.Written.{six_written};

use std::fmt;

/// What an edge measures. With e the vector of the edge, b that of its next edge, b2 that of the edge after that, and c that of
/// the next edge of its opposite: the products e·e, e·b, e·b2, e·c and b·c, and the volume of e, b and c.
#[derive(Clone, Copy, PartialEq, Eq, Default)]
pub struct Measures {
    pub ee: i64,
    pub eb: i64,
    pub eb2: i64,
    pub ec: i64,
    pub bc: i64,
    pub volume: i64,
}

impl fmt::Display for Measures {
    ghost output = { λ x. Some (six_written x) };

    fn fmt<W: fmt::Write>(&self, f: &mut fmt::Formatter<W>) -> fmt::Result {
        let Measures {
            ee,
            eb,
            eb2,
            ec,
            bc,
            volume,
        } = *self;
        write!(f, "{ee} {eb} {eb2} {ec} {bc} {volume}")
    }
}
