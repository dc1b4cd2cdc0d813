ghost use Rattle.std.specs.Prelude.{◌≡◌};

use std::marker::PhantomData;
use std::snapshot::Snapshot;
use std::thread::{Promise, PromisedHandle, Threads};

/// Work that may run beside its starter.
pub trait Task: Send + Drop {
    /// What tells one task from another. No value of it need be made.
    type Name;

    /// The name of the task, which its work leaves as it is.
    ghost name: { Self → Self.Name };

    /// Does the work, and returns when it is done.
    fn run(&mut self)
        ensures same { name self.new ≡ name self.old };
}

/// The promise of a start: the task that comes back has the name of the one that was started.
#[derive(Drop)]
pub(crate) struct SameName<T: Task>(pub(crate) Snapshot<T>);

impl<T: Task> Promise<T> for SameName<T> {
    ghost kept_by = { λ promise task. T.name task ≡ T.name promise.0.value };
}

/// A task that was started and is still to be joined. Clauses name it as it was at its start by
/// `begun_as`.
#[derive(Drop)]
pub struct Running<'s, T: Task> {
    pub(crate) handle: PromisedHandle<T, SameName<T>>,
    pub(crate) scope: PhantomData<&'s ()>,
}

impl<'s, T: Task> Running<'s, T> {
    ghost use Rattle.std.specs.Prelude.{◌≡◌};
    ghost use Rattle.gs_crew.specs.Tasks.{begun_as};

    /// Waits for the task, and gives it back after its run.
    pub fn join<R: Threads>(self, rt: &R) -> T
        ensures name { T.name result ≡ T.name (begun_as self.entry) }
    {
        let Running { handle, scope: _ } = self;
        handle.join(rt)
    }
}

/// A task that could not be started.
#[derive(Drop)]
pub struct Refused<T> {
    /// The task, which has not run.
    pub task: T,
}
