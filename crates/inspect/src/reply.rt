// What a line is answered.
use replies::advice::{Advice, Subject};
use replies::answer::Answer;
use replies::laid::{LayAnswer, Unpaired};
use replies::measured::{LabelAnswer, Unmeasured};
use replies::remedy::Remedy;
use std::fmt;

/// The answer to a line that asks.
#[derive(Clone, Copy)]
pub enum Reply {
    Check(Answer),
    Label(LabelAnswer),
    Lay(LayAnswer),
}

impl fmt::Display for Reply {
    fn fmt<W: fmt::Write>(&self, f: &mut fmt::Formatter<W>) -> fmt::Result {
        match self {
            Reply::Check(answer) => write_check(*answer, f),
            Reply::Label(answer) => write_label(*answer, f),
            Reply::Lay(answer) => write_lay(*answer, f),
        }
    }
}

// Each of these writes the words for programs first, and then those for people.

fn write_check<W: fmt::Write>(answer: Answer, f: &mut fmt::Formatter<W>) -> fmt::Result {
    match answer.0 {
        Ok(edges) => write!(f, "{answer} sound: {edges} directed edges"),
        Err(fault) => {
            let layer = fault.cause.layer();
            let subject = Subject::from(fault);
            let advice = Advice(fault);
            match fault.place {
                0 => write!(f, "{answer} {layer}: {subject}: {advice}"),
                place => write!(f, "{answer} {layer}: {subject} {place}: {advice}"),
            }
        }
    }
}

fn write_label<W: fmt::Write>(answer: LabelAnswer, f: &mut fmt::Formatter<W>) -> fmt::Result {
    let edge = answer.edge;
    match answer.measures {
        Ok(_) => write!(
            f,
            "{answer} edge {edge}: products e.e e.b e.b2 e.c b.c, volume"
        ),
        Err(Unmeasured::NoEdge { edges }) => write!(
            f,
            "{answer} catalogue: edge {edge}: the last sound drawing has the edges 1 to {edges}; name one of them"
        ),
        Err(Unmeasured::NoBlock) => write!(
            f,
            "{answer} catalogue: no drawing was sound so far; draw one and check it first"
        ),
    }
}

fn write_lay<W: fmt::Write>(answer: LayAnswer, f: &mut fmt::Formatter<W>) -> fmt::Result {
    match answer.paired {
        Ok(()) => write!(f, "{answer}: the images are a pairing"),
        Err(Unpaired::Misfit(misfit)) => write!(f, "{answer}: {}", Remedy(misfit)),
        Err(Unpaired::NoPair) => write!(
            f,
            "{answer} catalogue: fewer than two drawings were sound so far; draw and check them first"
        ),
    }
}
