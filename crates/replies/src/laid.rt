// The answer to a lay line, as it is written.
ghost use Rattle.std.specs.Prelude.{◌≡◌, Some};
ghost use Rattle.replies.specs.Replies.{lay_written};
ghost use Rattle.replies.specs.declared.laid.Unpaired.TheVariants as unpaired;

use laying::misfit::Misfit;
use lines::kind::KindName;
use std::fmt;

/// Why the images are no pairing.
#[derive(Clone, Copy)]
pub enum Unpaired {
    /// fewer than two drawings were sound
    NoPair,
    /// this is their first flaw
    Misfit(Misfit),
}

impl From<Misfit> for Unpaired {
    ghost from_gives = { λ misfit r. r ≡ unpaired.Misfit misfit };

    fn from(misfit: Misfit) -> Self {
        Unpaired::Misfit(misfit)
    }
}

/// Whether the images in hand lay the last sound drawing but one onto the last, under this kind.
#[derive(Clone, Copy)]
pub struct LayAnswer {
    pub kind: KindName,
    pub paired: Result<(), Unpaired>,
}

impl fmt::Display for LayAnswer {
    ghost output = { λ a. Some (lay_written a) };

    fn fmt<W: fmt::Write>(&self, f: &mut fmt::Formatter<W>) -> fmt::Result {
        let kind = self.kind;
        match self.paired {
            Ok(()) => write!(f, "lay 0 yes {kind}"),
            Err(Unpaired::Misfit(misfit)) => {
                let flaw = misfit.cause;
                let place = misfit.place;
                write!(f, "lay 0 no {kind} {flaw} {place}")
            }
            Err(Unpaired::NoPair) => f.write_str("lay 13 1"),
        }
    }
}
