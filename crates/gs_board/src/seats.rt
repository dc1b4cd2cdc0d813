ghost use Rattle.std.specs.Prelude.{◌≡◌, ◌<◌, [], max, OnOk, OnErr};
ghost use Rattle.gs_board.specs.Slips.{noted};

use crate::told::Told;
use gs_clock::Clock;
use gs_trace::NodeStart;
use gs_units::NodeParams;
use std::alloc::{AllocError, Global};
use std::marker::{Model, PhantomData};

/// What one caller of a board was told, the timer or the receiver of a neighbour. It comes from
/// `Board::seat` alone, once for each of them. Contracts see whose it is, the parameters and the start of
/// its board, its entries and its room.
#[derive(Drop)]
pub struct Seat<C: Clock> {
    whose: Option<u32>,
    params: NodeParams,
    begun: NodeStart,
    told: Vec<Told>,
    room: u64,
    /// A seat is for boards of one type of clock.
    clock: PhantomData<C>,
}

impl<C: Clock> Model for Seat<C> {
    ghost use Rattle.std.specs.Prelude.{◌≤◌, ◌+◌, vec_len};
    ghost use Rattle.std.specs.Vec.{vec_capacity};
    ghost use Rattle.gs_board.specs.Slips.{Slip};

    ghost Value = { Slip };

    ghost view = { λ a. record { whose = a.whose; params = a.params; begun = a.begun; told = a.told.items; room = a.room } };

    ghost invariant = { λ a. vec_len a.told + a.room ≤ vec_capacity a.told };
}

impl<C: Clock> Seat<C> {
    /// A seat without entries and without room.
    pub(crate) fn new(
        alloc: Global,
        whose: Option<u32>,
        params: NodeParams,
        begun: NodeStart,
    ) -> Seat<C>
        ensures { result ≡ record { whose = whose; params = params; begun = begun; told = []; room = 0 } }
    {
        Seat {
            whose,
            params,
            begun,
            told: Vec::new(alloc),
            room: 0,
            clock: PhantomData,
        }
    }

    /// Makes room for at least `n` entries more.
    pub fn reserve(&mut self, n: u64) -> Result<(), AllocError>
        ensures ok { OnOk result (self.new ≡ record self.old { room = max self.old.room n }) }
        ensures err { OnErr result (self.new ≡ self.old) }
    {
        if n > self.room {
            self.told.reserve(n as usize)?;
            self.room = n;
        }
        Ok(())
    }

    /// The entries so far, in the order of the journal.
    pub fn told(&self) -> &[Told]
        ensures { result.now ≡ self.now.told }
    {
        &self.told
    }

    /// For how many more entries there is room.
    pub fn room(&self) -> u64
        ensures { result ≡ self.now.room }
    {
        self.room
    }

    /// The neighbour whose seat this is, or none for the timer's.
    pub fn whose(&self) -> Option<u32>
        ensures { result ≡ self.now.whose }
    {
        self.whose
    }

    /// The parameters of the board that issued it.
    pub(crate) fn params(&self) -> &NodeParams
        ensures { result.now ≡ self.now.params }
    {
        &self.params
    }

    /// The start of the board that issued it.
    pub(crate) fn begun(&self) -> NodeStart
        ensures { result ≡ self.now.begun }
    {
        self.begun
    }

    /// Takes an entry.
    pub(crate) fn note(&mut self, entry: Told)
        requires { 0 < self.old.room }
        ensures { self.new ≡ noted self.old entry }
    {
        self.told.push_reserved(entry);
        self.room -= 1;
    }
}
