// How many drawings were judged.
ghost use Rattle.std.specs.Prelude.{◌≡◌};
ghost use Rattle.inspect.specs.Tallies.{counted};

use drawing::fault::Fault;

/// How many drawings were judged sound, and how many were refused.
#[derive(Clone, Copy, Default)]
pub struct Tally {
    pub sound: u64,
    pub refused: u64,
}

impl Tally {
    /// Counts one verdict more.
    pub(crate) fn count(&mut self, verdict: Result<usize, Fault>)
        ensures { self.new ≡ counted self.old verdict }
    {
        match verdict {
            Ok(_) => self.sound = self.sound.saturating_add(1),
            Err(_) => self.refused = self.refused.saturating_add(1),
        }
    }
}
