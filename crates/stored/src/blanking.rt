// What stands in a table where no label was made yet.
ghost use Rattle.std.specs.Prelude.{◌≡◌};
ghost use Rattle.label.specs.Measured.{unmeasured};

use label::both::{Labels, Pair};
use label::kind::Kind;
use label::marking::Mark;
use label::measures::Measures;
use label::measuring::Measure;

/// A kind whose tables can be filled before any label is made.
pub trait Blank: Kind {
    // what stands in a table where no label was made yet
    ghost blank: { Self.Label };

    /// What stands in a table where no label was made yet.
    fn blank() -> Self::Label
        ensures { result ≡ blank };
}

impl Blank for Mark {
    ghost blank = { 0 };

    fn blank() -> u8 {
        0
    }
}

impl Blank for Measure {
    ghost blank = { unmeasured };

    fn blank() -> Measures {
        Measures::default()
    }
}

impl<A: Blank, B: Blank> Blank for Pair<A, B> {
    ghost blank = { record { first = A.Blank.blank; second = B.Blank.blank } };

    fn blank() -> Labels<A::Label, B::Label> {
        Labels {
            first: A::blank(),
            second: B::blank(),
        }
    }
}
