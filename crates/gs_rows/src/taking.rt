ghost use Rattle.std.specs.Prelude.{◌≡◌, IfErr, IfOk, None, OnErr, OnOk};
ghost use Rattle.gs_run.specs.Nets.{net_of};
ghost use Rattle.gs_run.specs.Why.{why};
ghost use Rattle.gs_run.specs.World.{effect};
ghost use Rattle.gs_calendar.specs.Breach.{breach_in};
ghost use Rattle.gs_calendar.specs.Calm.{IsCalm};
ghost use Rattle.gs_calendar.specs.Stops.{StopsAt};
ghost use Rattle.gs_rows.specs.Taken.{fast_taken};

use gs_calendar::PlayStop;
use gs_core::Event;
use gs_world::{Refused, World};

/// Takes one event that is calm, as all events of a script are: see [`gs_calendar::scripts_are_calm`]. Of a
/// quantum it answers how many nodes took it in fast mode. What refuses an event is a quantum's breach, or memory that
/// ran out; it changes nothing.
pub fn take_event(world: &mut World<'_>, event: &Event) -> Result<Option<u32>, PlayStop>
    requires calm { IsCalm (net_of world.old.plan) world.old.world event.now }
    ensures plan { world.new.plan ≡ world.old.plan }
    ensures allowed { OnOk result (why (net_of world.old.plan) world.old.world event.now ≡ None) }
    ensures effect { OnOk result
        (world.new.world ≡ effect (net_of world.old.plan) world.old.world event.now) }
    ensures fast { IfOk result (λ fast. fast ≡ fast_taken world.old.world event.now) }
    ensures stop { IfErr result (StopsAt (breach_in (net_of world.old.plan) world.old.world event.now)) }
    ensures unchanged { OnErr result (world.new ≡ world.old) }
{
    match event {
        Event::Quantum(incs) => {
            let fast = world.fast_nodes();
            match world.advance(incs.as_slice()) {
                Ok(()) => Ok(Some(fast)),
                Err(Refused::Stale(from, to)) => Err(PlayStop::Stale {
                    quantum: world.quanta() + 1,
                    from,
                    to,
                }),
                Err(_) => unreachable!(),
            }
        }
        Event::Tick(_) | Event::Deliver { .. } => match world.step(event) {
            Ok(()) => Ok(None),
            Err(Refused::OutOfMemory) => Err(PlayStop::OutOfMemory),
            Err(_) => unreachable!(),
        },
    }
}
