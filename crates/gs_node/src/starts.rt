ghost use Rattle.std.specs.Prelude.{◌≡◌, ◌≤◌, ◌⊎◌, [], map, length, vec_len, Some, true, All, IsTrue};
ghost use Rattle.std.specs.Vec.{vec_capacity};
ghost use Rattle.gs_units.specs.Params.{AreValid};
ghost use Rattle.gs_io.specs.Causes.{Rose};
ghost use Rattle.gs_net.specs.Tales.{IsFresh, whole, wholes};
ghost use Rattle.gs_node.specs.inside.Begun.{IsNewSeat, of_task};

use gs_board::{Seat, Shared};
use gs_callers::Listening;
use gs_clock::Clock;
use gs_crew::{Crew, Refused, Running, Task};
use gs_net::Inlet;
use gs_units::NodeParams;
use std::sync::Wait;
use std::thread::{Scope, Threads};

/// A task that was started, or could not be.
pub(crate) type Begun<'s, T> = Result<Running<'s, T>, Refused<T>>;

/// Starts a receiver for each inlet, up to the first refusal, and keeps the others. Tells whether one was
/// refused.
pub(crate) fn start_all<
    's,
    'e: 's,
    R: Threads + Wait + Sync + 'e,
    C: Clock + Send + 'e,
    I: Inlet + Send + 'e,
    W: Crew,
>(
    rt: &'e R,
    scope: &Scope<'s, &'e ()>,
    board: &'e Shared<C>,
    params: &'e NodeParams,
    seats: Vec<Seat<C>>,
    inlets: Vec<I>,
    begun: &mut Vec<Begun<'s, Listening<'e, R, C, I>>>,
    crew: &mut W,
) -> bool
    requires valid { AreValid params.now }
    requires seats { All IsNewSeat seats.items }
    requires inlets { All IsFresh (map I.tale inlets.items) }
    requires count { length seats.items ≡ length inlets.items }
    requires room { (begun.old.items ≡ []) × (vec_len inlets ≤ vec_capacity begun.old) }
    ensures params { All (λ b. of_task (λ t. t.receiver.params.now) b ≡ params.now) begun.new.items }
    ensures whose { map (λ b. Some (of_task (λ t. t.receiver.neighbour) b)) begun.new.items ≡ map (λ s. s.whose) seats.items }
    ensures items { map (of_task (λ t. whole (I.tale t.receiver.inlet))) begun.new.items ≡ wholes I.tale inlets.items }
    ensures never_falls { W.faults crew.old ≤ W.faults crew.new }
    ensures refused { result ≡ true → Rose (W.faults crew.old) (W.faults crew.new) }
{
    let mut waiting = seats.into_iter();
    let mut refused = false;
    for inlet in inlets {
        let Some(seat) = waiting.next() else {
            unreachable!()
        };
        let Some(neighbour) = seat.whose() else {
            unreachable!()
        };
        let task = Listening::new(rt, board, params, neighbour, seat, inlet);
        let one = start_one(scope, task, &mut refused, &mut *crew);
        begun.push_reserved(one);
    }
    refused
}

/// Starts a task, unless one was refused before.
pub(crate) fn start_one<'s, 'e, T: Task + 's, W: Crew>(
    scope: &Scope<'s, &'e ()>,
    task: T,
    refused: &mut bool,
    crew: &mut W,
) -> Begun<'s, T>
    ensures name { of_task T.name result ≡ T.name task }
    ensures never_falls { W.faults crew.old ≤ W.faults crew.new }
    ensures refused { refused.new ≡ true → (refused.old ≡ true) ⊎ Rose (W.faults crew.old) (W.faults crew.new) }
{
    if *refused {
        return Err(Refused { task });
    }
    let one = crew.start(scope, task);
    if one.is_err() {
        *refused = true;
    }
    one
}
