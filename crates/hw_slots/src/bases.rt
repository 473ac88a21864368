ghost use Rattle.std.specs.Prelude.{◌≡◌};
ghost use Rattle.hw_slots.specs.Answer.{base_at};

use crate::tally::Tally;

/// The first slots of the levels of periods (own).
#[derive(Drop)]
pub struct Bases {
    /// By period and level, with the first behind all levels of a period.
    firsts: Tally,
    /// How many levels each period has, at level 0.
    levels: Tally,
}

impl Bases {
    /// By the first slots of levels, and how many of these there are.
    pub fn new(firsts: Tally, levels: Tally) -> Bases
        ensures { result ≡ record { firsts = firsts; levels = levels } }
    {
        Bases { firsts, levels }
    }

    /// The first slot of a level of a period; of a level behind all others the first that is behind
    /// these.
    pub fn at(&self, period: u64, level: u64) -> u64
        ensures { result ≡ base_at self.now period level }
    {
        let levels = self.levels.get(period, 0);
        self.firsts.get(period, level.min(levels))
    }
}
