ghost use Rattle.std.specs.Prelude.{◌≡◌, ◌<◌, ◌+◌, IsTrue};
ghost use Rattle.gs_net.specs.Tales.{IsFresh, IsUnused, whole};
ghost use Rattle.gs_respond.specs.Doors.{DoorAnswers, DoorTaken, Owes};
ghost use Rattle.gs_respond.specs.Rests.{is_at_rest};
ghost use Rattle.gs_respond.specs.inside.Stops.{Rests};

use crate::responder::{Responder, ResponderName};
use crate::rests::Rest;
use gs_board::Shared;
use gs_clock::Clock;
use gs_crew::Task;
use gs_net::Door;
use gs_view::Reader;
use std::sync::Wait;

/// The task that answers the time requests of one door, until the door has ended or failed, the view
/// clock has failed, or the board is closed.
#[derive(Drop)]
pub struct Responding<'a, R: Wait, C: Clock, V: Clock, D: Door> {
    responder: Responder<'a, R, C, V, D>,
    rest: Rest,
    ghost rests: { Rests rest (D.Inlet.tale responder.door) responder.owed
        (D.Inlet.faults responder.door) (V.faults responder.view_clock) },
}

/// What a responder leaves behind.
#[derive(Drop)]
pub struct Responded<V: Clock, D: Door> {
    /// The door.
    pub door: D,
    /// The clock that it read.
    pub view_clock: V,
    /// Why it stopped.
    pub rest: Rest,
}

impl<'a, R: Wait + Sync, C: Clock + Send, V: Clock + Send, D: Door + Send> Responding<
    'a,
    R,
    C,
    V,
    D,
> {
    /// A responder of this node that has taken nothing. It answers with the reader's clock at the readings
    /// of the view clock, and looks at the board to see whether it is closed.
    #[tactic(auto, using(crate::proofs::Resting::rests_open, crate::proofs::Accounting::answered_new))]
    pub fn new(
        rt: &'a R,
        board: &'a Shared<C>,
        node: u32,
        door: D,
        view_clock: V,
        reader: Reader,
    ) -> Self
        requires fresh { IsFresh (D.Inlet.tale door) }
        requires unused { IsUnused (D.Inlet.replies door) }
        ensures name { ⟦<Responding<'a, R, C, V, D> as Task>⟧.name result
            ≡ record { node = node; items = whole (D.Inlet.tale door) } }
    {
        Responding {
            responder: Responder {
                rt,
                board,
                node,
                door,
                view_clock,
                reader,
                owed: None,
                since: 0,
            },
            rest: Rest::Open,
        }
    }

    /// What it leaves behind, whether it ran or not.
    pub fn end(self) -> Responded<V, D>
        ensures items { whole (D.Inlet.tale result.door)
            ≡ (⟦<Responding<'a, R, C, V, D> as Task>⟧.name self.entry).items }
        ensures answers { DoorAnswers (⟦<Responding<'a, R, C, V, D> as Task>⟧.name self.entry).node
            (D.Inlet.tale result.door) (D.Inlet.replies result.door) }
        ensures owes { Owes (D.Inlet.tale result.door) (D.Inlet.replies result.door)
            (D.Inlet.faults result.door + V.faults result.view_clock) }
        ensures taken { IsTrue (is_at_rest result.rest)
            → DoorTaken (D.Inlet.tale result.door) (D.Inlet.replies result.door) }
        ensures clock { result.rest ≡ Rest.Clock → 0 < V.faults result.view_clock }
        ensures door { result.rest ≡ Rest.Door → 0 < D.Inlet.faults result.door }
    {
        let Responding { responder, rest } = self;
        let Responder {
            rt: _,
            board: _,
            node: _,
            door,
            view_clock,
            reader: _,
            owed: _,
            since: _,
        } = responder;
        Responded {
            door,
            view_clock,
            rest,
        }
    }
}

impl<'a, R: Wait + Sync, C: Clock + Send, V: Clock + Send, D: Door + Send> Task
    for Responding<'a, R, C, V, D> {
    type Name = ResponderName;

    ghost name = { λ task. record {
      node = task.responder.node;
      items = whole (D.Inlet.tale task.responder.door);
    } };

    fn run(&mut self) {
        for _ in self.responder.rt.forever() {
            self.rest = self.responder.turn();
            if self.rest != Rest::Open {
                return;
            }
        }
    }
}
