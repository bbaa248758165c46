// The last two sound drawings.
ghost use Rattle.std.specs.Prelude.{◌≡◌};
ghost use Rattle.block.specs.Checked.{Checked};
ghost use Rattle.laying.specs.Layings.{misfit_in};
ghost use Rattle.kept.specs.Keeping.{kept};
ghost use Rattle.kept.specs.Answered.{VerdictUnder, AnswersLabel, AnswersLay};

use block::Block;
use label::both::Pair;
use label::marking::Mark;
use label::measures::Measures;
use label::measuring::Measure;
use laying::misfit::Misfit;
use laying::trial::{lay, lay_by_measure};
use lines::kind::KindName;
use replies::laid::Unpaired;
use replies::measured::Unmeasured;

/// The blocks of the last two sound drawings, as far as there are any.
#[derive(Default, Drop)]
pub struct Recent {
    pub last: Option<Block>,
    /// the last but one
    pub before: Option<Block>,
}

impl Recent {
    /// Keeps a block as the last, and the last as the last but one.
    pub fn keep(&mut self, block: Block)
        ensures { self.new ≡ kept self.old block }
    {
        self.before = self.last.take();
        self.last = Some(block);
    }

    /// What the edge of this number of the last block measures.
    pub fn label(&self, edge: usize) -> Result<Measures, Unmeasured>
        ensures { AnswersLabel self.now.last edge result }
    {
        let block = self.last.as_ref().ok_or(Unmeasured::NoBlock)?;
        let edges = block.edge_count();
        Measures::at(block, edge).ok_or(Unmeasured::NoEdge { edges })
    }

    /// Whether the images lay the last block but one onto the last.
    pub fn lay(&self, kind: KindName, images: &[usize]) -> Result<(), Unpaired>
        ensures { AnswersLay self.now.before self.now.last kind images.now result }
    {
        match (&self.before, &self.last) {
            (Some(first), Some(second)) => Ok(lay_under(kind, first, second, images)?),
            _ => Err(Unpaired::NoPair),
        }
    }
}

/// Tries a laying under the kind of this name.
// Kinds are types, and a line names one of three: a match is as plain as a table of functions.
fn lay_under(kind: KindName, first: &Block, second: &Block, images: &[usize]) -> Result<(), Misfit>
    ensures verdict { VerdictUnder kind first.now second.now images.now (misfit_in result) }
    ensures checked { (Checked first.now) × (Checked second.now) }
{
    match kind {
        KindName::Measure => lay_by_measure(first, second, images),
        KindName::Mark => lay::<Mark>(first, second, images),
        KindName::Both => lay::<Pair<Measure, Mark>>(first, second, images),
    }
}
