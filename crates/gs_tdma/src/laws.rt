ghost use Rattle.gs_tdma.specs.Laws.{SlotsNeverCollide};

/// Guards suffice. Take any accepted plan and any slot plan of it: at every moment of an allowed run from
/// equal clocks no two different nodes within its reach may both send.
///
/// For two clocks in different slots, each at least a guard from the border of its slot, differ by more than
/// twice the guard, and the bounds of the plan keep nodes within reach closer than that. Nodes within reach
/// have different colours, so they are never in one slot.
pub fn slots_never_collide()
    ensures { SlotsNeverCollide }
{}
