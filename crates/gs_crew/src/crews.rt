ghost use Rattle.std.specs.Prelude.{◌≡◌, ◌≤◌, ℕ, IfOk, IfErr, IsTrue, OnOk, OnErr};
ghost use Rattle.gs_io.specs.Causes.{Rose};
ghost use Rattle.gs_crew.specs.Tasks.{begun_as};

use crate::tasks::{Refused, Running, SameName, Task};
use std::alloc::Global;
use std::marker::PhantomData;
use std::snapshot::Snapshot;
use std::sync::Arc;
use std::sync::atomic::{AtomicBool, Ordering};
use std::thread::Scope;

/// Who starts tasks. A crew says by `admits` whether the next start may be tried and by `fail` that
/// one could not be made; `start` is the same for all crews.
pub trait Crew {
    /// How many starts it has refused.
    ghost faults: { Self → ℕ };

    /// Whether the next start may be tried. One that may not is counted as a fault.
    fn admits(&mut self) -> bool
        ensures never_falls { faults self.old ≤ faults self.new }
        ensures yes { IsTrue result → faults self.new ≡ faults self.old }
        ensures no { (IsTrue result → ⊥) → Rose (faults self.old) (faults self.new) };

    /// Counts a start that could not be made.
    fn fail(&mut self)
        ensures never_falls { faults self.old ≤ faults self.new }
        ensures rose { Rose (faults self.old) (faults self.new) };

    /// Where the flag of a start finds its memory.
    fn alloc(&self) -> Global;

    /// Starts the task beside the caller. A start that is refused, or that finds no memory or no
    /// thread, gives the task back without having run it, and is counted.
    final fn start<'s, 'e, T: Task + 's>(
        &mut self,
        scope: &Scope<'s, &'e ()>,
        task: T,
    ) -> Result<Running<'s, T>, Refused<T>>
        ensures started { IfOk result
            (λ running. T.name (begun_as running) ≡ T.name task) }
        ensures refused { IfErr result (λ refused. T.name refused.task ≡ T.name task) }
        ensures uncounted { OnOk result (Self.faults self.new ≡ Self.faults self.old) }
        ensures cause { OnErr result (Rose (Self.faults self.old) (Self.faults self.new)) }
        ensures never_falls { Self.faults self.old ≤ Self.faults self.new }
    {
        if !self.admits() {
            return Err(Refused { task });
        }
        let Ok(skip) = Arc::new(self.alloc(), AtomicBool::new(false)) else {
            self.fail();
            return Err(Refused { task });
        };
        let Ok(theirs) = Arc::try_clone(&skip) else {
            self.fail();
            return Err(Refused { task });
        };
        let promise = SameName(Snapshot::of(&task));
        let job = move || -> T
            ensures { T.name result ≡ T.name task }
        {
            let mut task = task;
            if !theirs.load(Ordering::SeqCst) {
                task.run();
            }
            task
        };
        match scope.spawn_with(promise, job) {
            Ok(handle) => Ok(Running {
                handle,
                scope: PhantomData,
            }),
            Err(unmade) => {
                // The closure holds the task: with the flag set it gives it up without a run.
                skip.store(true, Ordering::SeqCst);
                self.fail();
                Err(Refused {
                    task: (unmade.value)(),
                })
            }
        }
    }
}
