ghost use Rattle.std.specs.Prelude.{◌≡◌, [], IfErr, IfOk, IfSome, IsSome, None, OnErr, OnOk, Ok, false, is_some, length};
ghost use Rattle.gs_run.specs.Nets.{net_of};
ghost use Rattle.gs_run.specs.Why.{why};
ghost use Rattle.gs_run.specs.World.{effect};
ghost use Rattle.gs_calendar.specs.Breach.{breach_in, first_breach};
ghost use Rattle.gs_calendar.specs.Calm.{Calm, IsCalm};
ghost use Rattle.gs_calendar.specs.Stops.{StopsAt};
ghost use Rattle.gs_rows.specs.inside.Onward.{left_of, GoesOn};
ghost use Rattle.gs_rows.specs.Taken.{fast_taken};

use crate::taking::take_event;
use gs_calendar::{Feed, PlayStop};
use gs_core::Event;
use gs_world::World;
use std::alloc::{AllocError, Global};

/// Holds the first event that is left, if there is one.
fn hold(alloc: Global, feed: &mut Feed<'_>, held: &mut Option<Event>) -> Result<bool, AllocError>
    ensures same { left_of held.new feed.new ≡ left_of held.old feed.old }
    ensures held { IfOk result (λ b. b ≡ is_some held.new) }
    ensures end { result ≡ Ok false → left_of held.new feed.new ≡ [] }
{
    if held.is_none() {
        *held = feed.next(alloc)?;
    }
    Ok(held.is_some())
}

/// Takes the event that is held. A refusal leaves it where it is.
fn take_held(world: &mut World<'_>, held: &mut Option<Event>) -> Result<Option<u32>, PlayStop>
    requires held { IsSome held.old }
    requires calm { IfSome held.old (IsCalm (net_of world.old.plan) world.old.world) }
    ensures plan { world.new.plan ≡ world.old.plan }
    ensures allowed { OnOk result (IfSome held.old
        (λ e. why (net_of world.old.plan) world.old.world e ≡ None)) }
    ensures effect { OnOk result (IfSome held.old
        (λ e. world.new.world ≡ effect (net_of world.old.plan) world.old.world e)) }
    ensures fast { IfOk result (λ fast. IfSome held.old (λ e. fast ≡ fast_taken world.old.world e)) }
    ensures empty { OnOk result (held.new ≡ None) }
    ensures stop { IfErr result (λ stop. IfSome held.old
        (λ e. StopsAt (breach_in (net_of world.old.plan) world.old.world e) stop)) }
    ensures unchanged { OnErr result (world.new ≡ world.old) }
    ensures kept { OnErr result (held.new ≡ held.old) }
{
    let fast = match held {
        Some(event) => take_event(world, event)?,
        None => unreachable!(),
    };
    *held = None;
    Ok(fast)
}

/// Plays on to the end of the next quantum: how many nodes took it in fast mode, or none where no event
/// is left. After a refusal the play can go on from where it is.
pub(crate) fn play_on(
    alloc: Global,
    world: &mut World<'_>,
    feed: &mut Feed<'_>,
    held: &mut Option<Event>,
) -> Result<Option<u32>, PlayStop>
    requires calm { Calm (net_of world.old.plan) world.old.world (left_of held.old feed.old) }
    requires members { length world.old.world.members ≡ (net_of world.old.plan).nodes }
    ensures plan { world.new.plan ≡ world.old.plan }
    ensures ok { IfOk result (λ passed.
        GoesOn (net_of world.old.plan) world.old.world (left_of held.old feed.old)
        passed world.new.world (left_of held.new feed.new)) }
    ensures end { result ≡ Ok None → left_of held.new feed.new ≡ [] }
    ensures err { OnErr result (GoesOn (net_of world.old.plan) world.old.world (left_of held.old feed.old)
        None world.new.world (left_of held.new feed.new)) }
    ensures stop { IfErr result
        (StopsAt (first_breach (net_of world.old.plan) world.old.world (left_of held.old feed.old))) }
{
    while hold(alloc, feed, held)? {
        let passed = take_held(world, held)?;
        if passed.is_some() {
            return Ok(passed);
        }
    }
    Ok(None)
}
