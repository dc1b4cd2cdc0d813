ghost use Rattle.std.specs.Prelude.{◌≡◌, ◌≤◌, ◌↔◌, IsTrue};
ghost use Rattle.gs_io.specs.Causes.{Rose, counted, is_to_fail};
ghost use Rattle.gs_crew.specs.Roster.{Roster, after_admission, after_refusal};

use crate::Crew;
use std::alloc::Global;
use std::marker::Model;

/// A crew of threads for tests. It refuses the starts whose numbers it was given, from 1, and of the
/// others those for which there was no memory or no thread.
#[derive(Drop)]
pub struct ShortCrew {
    alloc: Global,
    fails: Vec<u64>,
    starts: u64,
    faults: u64,
}

impl Model for ShortCrew {
    ghost Value = { Roster };

    ghost view = { λ crew. record {
      fails = crew.fails.items;
      starts = crew.starts;
      faults = crew.faults;
    } };
}

impl ShortCrew {
    /// A crew that refuses the starts of these numbers.
    pub fn new(alloc: Global, fails: Vec<u64>) -> Self
        ensures { result ≡ record { fails = fails.items; starts = 0; faults = 0 } }
    {
        ShortCrew {
            alloc,
            fails,
            starts: 0,
            faults: 0,
        }
    }
}

impl Crew for ShortCrew {
    ghost faults = { λ crew. crew.faults };

    fn admits(&mut self) -> bool
        ensures named { IsTrue result ↔ (IsTrue (is_to_fail self.old.fails (counted self.old.starts)) → ⊥) }
        ensures yes { IsTrue result → self.new ≡ after_admission self.old }
        ensures no { (IsTrue result → ⊥) → self.new ≡ after_refusal self.old }
        ensures never_falls { self.old.faults ≤ self.new.faults }
    {
        self.starts = self.starts.saturating_add(1);
        if self.fails.contains(&self.starts) {
            self.faults = self.faults.saturating_add(1);
            return false;
        }
        true
    }

    fn fail(&mut self)
        ensures counted { self.new ≡ record self.old { faults = counted self.old.faults } }
        ensures never_falls { self.old.faults ≤ self.new.faults }
        ensures rose { Rose self.old.faults self.new.faults }
    {
        self.faults = self.faults.saturating_add(1);
    }

    fn alloc(&self) -> Global {
        self.alloc
    }
}
