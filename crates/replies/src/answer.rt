// The answer to a check, as it is written.
ghost use Rattle.std.specs.Prelude.{Some};
ghost use Rattle.replies.specs.Answers.{written};

use drawing::fault::Fault;
use std::fmt;

/// What was found of a drawing: that it is sound, with so many directed edges, or the refusal.
#[derive(Clone, Copy)]
pub struct Answer(pub Result<usize, Fault>);

impl fmt::Display for Answer {
    ghost output = { λ a. Some (written a.0) };

    fn fmt<W: fmt::Write>(&self, f: &mut fmt::Formatter<W>) -> fmt::Result {
        match self.0 {
            Ok(edges) => write!(f, "check 0 {edges}"),
            Err(fault) => {
                let number = fault.cause.number();
                let place = fault.place;
                write!(f, "check {number} {place}")
            }
        }
    }
}
