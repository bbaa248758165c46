// A run over the lines of an input.
ghost use Rattle.std.specs.Prelude.{◌≡◌, [], IfOk, None};
ghost use Rattle.drawing.specs.Verdicts.{tables};
ghost use Rattle.inspect.specs.Following.{Judges, Checks, Asks, Lays, Follows};

use crate::in_hand::Tables;
use crate::reply::Reply;
use crate::tally::Tally;
use anyhow::bail;
use drawing::fault::Fault;
use kept::recent::Recent;
use lines::kind::KindName;
use lines::line::Line;
use lines::reading::read_line;
use replies::answer::Answer;
use replies::laid::LayAnswer;
use replies::measured::LabelAnswer;
use std::alloc::Global;
use std::io;
use std::io::BufRead;
use std::marker::Model;

/// What is in hand, what is kept, and what was counted.
#[derive(Drop)]
pub struct Session {
    tables: Tables,
    /// the proposed images, for edge 1 and on
    images: Vec<usize>,
    recent: Recent,
    line: Vec<u8>,
    tally: Tally,
}

// A contract sees what is in hand, what is kept and what was counted; not the line that was read.
impl Model for Session {
    ghost use Rattle.inspect.specs.State.{State};

    ghost Value = { State };

    ghost view = { λ s. record { tables = s.tables; images = s.images.items; recent = s.recent; tally = s.tally } };
}

impl Session {
    pub(crate) fn new(heap: Global) -> Self
        ensures tables { result.tables ≡ tables [] [] [] }
        ensures images { result.images ≡ [] }
        ensures recent { (result.recent.last ≡ None) × (result.recent.before ≡ None) }
        ensures tally { (result.tally.sound ≡ 0) × (result.tally.refused ≡ 0) }
    {
        Session {
            tables: Tables::new(heap),
            images: Vec::new(heap),
            recent: Recent::default(),
            line: Vec::new(heap),
            tally: Tally::default(),
        }
    }

    /// Reads and follows every line of `input`.
    pub(crate) fn read<R: BufRead + Drop>(
        &mut self,
        rt: &impl Print,
        mut input: R,
    ) -> anyhow::Result<()> {
        // a count that no input reaches: the language wants a loop with an end
        for number in 1..u64::MAX {
            self.line.clear();
            if input.read_until(b'\n', &mut self.line)? == 0 {
                break;
            }
            match read_line(self.line.as_slice()) {
                Ok(line) => {
                    if let Some(reply) = self.follow(line)? {
                        println!(rt; "{reply}")?;
                    }
                }
                Err(malformed) => bail!("line {number}: {malformed}"),
            }
        }
        Ok(())
    }

    /// Does what the line says, and hands back what it is answered, if it asks. It fails only where memory runs out.
    fn follow(&mut self, line: Line) -> io::Result<Option<Reply>>
        ensures { IfOk result (Follows self.old line self.new) }
    {
        match line {
            Line::Point(point) => self.tables.points.push(point)?,
            Line::Corner(corner) => self.tables.corners.push(corner)?,
            Line::Face(face) => self.tables.faces.push(face)?,
            Line::Check => return Ok(Some(Reply::Check(self.check()))),
            Line::Label(edge) => return Ok(Some(Reply::Label(self.label(edge)))),
            Line::Image(image) => self.images.push(image)?,
            Line::Lay(kind) => return Ok(Some(Reply::Lay(self.lay(kind)))),
            Line::Blank => {}
        }
        Ok(None)
    }

    /// Judges the tables in hand, counts the verdict, and empties them.
    fn check(&mut self) -> Answer
        ensures { Checks self.old result.0 self.new }
    {
        let verdict = self.judge();
        self.tables.clear();
        self.tally.count(verdict);
        Answer(verdict)
    }

    /// Judges the tables in hand, and keeps the block of a sound drawing. The verdict is how many edges that has, or the refusal.
    fn judge(&mut self) -> Result<usize, Fault>
        ensures judged { Judges self.old.tables self.old.recent result self.new.recent }
        ensures stays { self.new ≡ record self.old { recent = self.new.recent } }
    {
        let block = self.tables.judge()?;
        let edges = block.edge_count();
        self.recent.keep(block);
        Ok(edges)
    }

    /// What the edge of this number of the last block measures.
    fn label(&self, edge: usize) -> LabelAnswer
        ensures { Asks self.now edge result self.now }
    {
        LabelAnswer {
            edge,
            measures: self.recent.label(edge),
        }
    }

    /// Tries the images in hand, and empties them.
    fn lay(&mut self, kind: KindName) -> LayAnswer
        ensures { Lays self.old kind result self.new }
    {
        let paired = self.recent.lay(kind, self.images.as_slice());
        self.images.clear();
        LayAnswer { kind, paired }
    }

    /// Says what was done.
    pub(crate) fn sum_up(&self, rt: &impl Print) -> io::Result<()> {
        let sound = self.tally.sound;
        let refused = self.tally.refused;
        let all = sound.saturating_add(refused);
        println!(rt; "drawings: {all}, sound: {sound}, refused: {refused}")?;
        if !self.tables.is_empty() {
            let points = self.tables.points.len();
            let corners = self.tables.corners.len();
            let faces = self.tables.faces.len();
            println!(rt;
                "left without a check: {points} points, {corners} corners, {faces} faces"
            )?;
        }
        if !self.images.is_empty() {
            let images = self.images.len();
            println!(rt; "left without a lay: {images} images")?;
        }
        Ok(())
    }
}
