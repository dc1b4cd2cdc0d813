ghost use Rattle.std.specs.Prelude.{◌≡◌, ◌≤◌, IsTrue};
ghost use Rattle.gs_io.specs.Causes.{Rose, counted};

use crate::Crew;
use std::alloc::Global;

/// A crew of threads, one for each task. It refuses no start, and counts those for which there was
/// no memory or no thread.
#[derive(Drop)]
pub struct ThreadCrew {
    alloc: Global,
    faults: u64,
}

impl ThreadCrew {
    /// A crew whose starts take their memory from this allocator.
    pub fn new(alloc: Global) -> Self
        ensures { ⟦<ThreadCrew as Crew>⟧.faults result ≡ 0 }
    {
        ThreadCrew { alloc, faults: 0 }
    }
}

impl Crew for ThreadCrew {
    ghost use Rattle.gs_crew.specs.Adapters.{starts_failed};

    ghost faults = { starts_failed };

    fn admits(&mut self) -> bool
        ensures always { IsTrue result }
        ensures same { starts_failed self.new ≡ starts_failed self.old }
    {
        true
    }

    fn fail(&mut self)
        ensures counted { starts_failed self.new ≡ counted (starts_failed self.old) }
        ensures never_falls { starts_failed self.old ≤ starts_failed self.new }
        ensures rose { Rose (starts_failed self.old) (starts_failed self.new) }
    {
        self.faults = self.faults.saturating_add(1);
    }

    fn alloc(&self) -> Global {
        self.alloc
    }
}
