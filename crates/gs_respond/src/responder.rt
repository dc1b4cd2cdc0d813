ghost use Rattle.std.specs.Prelude.{◌≡◌, ◌<◌, ◌+◌, Some, Option, IsTrue, is_some};
ghost use Rattle.gs_net.specs.Tales.{whole};
ghost use Rattle.gs_respond.specs.inside.Accounts.{Answered, Counted};
ghost use Rattle.gs_respond.specs.inside.Stops.{IsLater, Rests};

use crate::replying::reply;
use crate::rests::Rest;
use gs_board::Shared;
use gs_clock::Clock;
use gs_net::{Door, Got, Item};
use gs_view::Reader;
use std::collections::LinkedList;
use std::sync::Wait;

/// After how many datagrams a responder looks whether the board is closed.
const ROUND: u32 = 64;

/// What a responder is known by: its node, and its door's items, given and left together. No value of it
/// is made.
#[derive(Drop)]
pub struct ResponderName {
    pub node: u32,
    pub items: Option<LinkedList<Item>>,
}

/// Answers the time requests of one door. Of each it is known that the door's requests have their
/// replies, but for the last one, which may be owed its reply; and then the clock or the door has failed.
#[derive(Drop)]
pub(crate) struct Responder<'a, R: Wait, C: Clock, V: Clock, D: Door> {
    pub(crate) rt: &'a R,
    pub(crate) board: &'a Shared<C>,
    pub(crate) node: u32,
    pub(crate) door: D,
    pub(crate) view_clock: V,
    pub(crate) reader: Reader,
    pub(crate) owed: Option<u64>,
    pub(crate) since: u32,
    ghost accounts: { Answered node (D.Inlet.tale door) (D.Inlet.replies door) owed reader.answer },
    ghost counted: { Counted (D.Inlet.tale door) since },
    ghost round: { since < 64 },
    ghost owing: { IsTrue (is_some owed) → 0 < D.Inlet.faults door + V.faults view_clock },
}

/// Whether the board is open.
fn is_open<R: Wait, C: Clock>(rt: &R, board: &Shared<C>) -> bool {
    !board.lock(rt).closed()
}

/// Whether to stop after `since` datagrams, counted from the last look at the board.
fn stop_after<R: Wait, C: Clock>(rt: &R, board: &Shared<C>, stop: Rest, since: u32) -> Rest
    ensures { IsLater stop since result }
{
    if stop == Rest::Open && since >= ROUND && !is_open(rt, board) {
        return Rest::Many;
    }
    stop
}

impl<'a, R: Wait, C: Clock, V: Clock, D: Door> Responder<'a, R, C, V, D> {
    /// Takes an item, answers it if it is a request, and says why to stop, if it is to.
    pub(crate) fn turn(&mut self) -> Rest
        ensures items { whole (D.Inlet.tale self.new.door) ≡ whole (D.Inlet.tale self.old.door) }
        ensures node { self.new.node ≡ self.old.node }
        ensures rests { Rests result (D.Inlet.tale self.new.door) self.new.owed
            (D.Inlet.faults self.new.door) (V.faults self.new.view_clock) }
    {
        if self.owed.is_some() {
            return Rest::Owing;
        }
        let mut into = [0; 64];
        match self.door.receive(&mut into) {
            Ok(Got::Datagram(n)) => {
                let replied = reply(
                    &mut self.door,
                    &mut self.view_clock,
                    &mut self.reader,
                    self.node,
                    &into[..n as usize],
                );
                let since = self.since + 1;
                self.owed = replied.owed;
                self.since = since % ROUND;
                stop_after(self.rt, self.board, replied.stop, since)
            }
            Ok(Got::Quiet) => {
                if is_open(self.rt, self.board) {
                    Rest::Open
                } else {
                    Rest::Quiet
                }
            }
            Ok(Got::Ended) => Rest::Ended,
            Err(_) => Rest::Door,
        }
    }
}
