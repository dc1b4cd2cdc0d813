ghost use Rattle.std.specs.Prelude.{◌≡◌, ◌-◌, ◌++◌, ◌∷◌, [], ℕ, List};
ghost use Rattle.gs_skew.specs.Ranges.{AreEnds};
ghost use Rattle.gs_skew.specs.Skews.{global_skew};

/// The least and the greatest of some clocks, which grows clock by clock.
#[derive(Clone, Copy, Debug, PartialEq, Eq)]
pub struct ClockRange {
    pub least: u64,
    pub greatest: u64,
}

#[tactic(auto, using(crate::proofs::Greatest::ends))]
impl ClockRange {
    /// The range of one clock.
    pub fn of(clock: u64) -> Self
        ensures { AreEnds (clock ∷ []) result.least result.greatest }
    {
        ClockRange {
            least: clock,
            greatest: clock,
        }
    }

    /// Takes in one more clock.
    pub fn add(&mut self, clock: u64)
        ensures { (clocks : List ℕ) → AreEnds clocks self.old.least self.old.greatest
            → AreEnds (clocks ++ clock ∷ []) self.new.least self.new.greatest }
    {
        self.least = self.least.min(clock);
        self.greatest = self.greatest.max(clock);
    }

    /// The greatest difference of two of the clocks.
    pub fn width(&self) -> u64
        ensures value { result ≡ self.now.greatest - self.now.least }
        ensures skew { (clocks : List ℕ) → AreEnds clocks self.now.least self.now.greatest
            → result ≡ global_skew clocks }
    {
        self.greatest.saturating_sub(self.least)
    }
}
