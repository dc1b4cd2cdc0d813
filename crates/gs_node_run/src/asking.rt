ghost use Rattle.std.specs.Prelude.{◌≡◌, ◌≤◌, ◌+◌, ◌++◌, ◌∷◌, [], length, map, take, Some, None, Err, All, IfOk, IfErr, OnOk};
ghost use Rattle.std.specs.List.{AllZip};
ghost use Rattle.gs_io.specs.Causes.{Rose};
ghost use Rattle.gs_net.specs.Lending.{Holds};
ghost use Rattle.gs_net.specs.Tales.{IsFresh, IsUnused, OnTold};
ghost use Rattle.gs_net.specs.declared.lending.Ask.{Ask};
ghost use Rattle.gs_node_run.specs.Addresses.{asks_for};
ghost use Rattle.gs_node_run.specs.Lending.{in_order};
ghost use Rattle.gs_node_run.specs.inside.Lent.{HasGot, one_if};

use crate::addresses::Addresses;
use gs_net::{LinkStop, Ports};
use std::alloc::Global;

/// All that a node needs of its ports.
pub struct Lent<P: Ports> {
    pub inlets: Vec<P::In>,
    pub outlet: P::Out,
    pub door: P::Asked,
}

/// What a node got of its ports, all or a part.
pub struct Objects<P: Ports> {
    pub inlets: Vec<P::In>,
    pub outlet: Option<P::Out>,
    pub door: Option<P::Asked>,
}

/// Asks the ports for the inlets in order, the outlet and the door. Where one is refused, what was got
/// before it is handed back.
pub fn ask<P: Ports>(
    alloc: Global,
    ports: &mut P,
    at: &Addresses,
) -> Result<Lent<P>, (Objects<P>, LinkStop)>
    ensures all { OnOk result (P.asked ports.new ≡ OnTold (P.asked ports.old) (λ before.
        before ++ asks_for at.now.inlets.items at.now.routes.items at.now.door)) }
    ensures some { IfErr result (λ stop. HasGot (asks_for at.now.inlets.items at.now.routes.items at.now.door)
        (in_order stop.0.inlets.items stop.0.outlet stop.0.door) (P.asked ports.old) (P.asked ports.new)) }
    ensures count { IfOk result (λ lent. length lent.inlets.items ≡ length at.now.inlets.items) }
    ensures fresh { IfOk result (λ lent. All IsFresh (map P.In.tale lent.inlets.items)) }
    ensures holds { IfOk result (λ lent. AllZip (Holds (P.held ports.old)) at.now.inlets.items (map P.In.tale lent.inlets.items)) }
    ensures unsent { IfOk result (λ lent. IsUnused (P.Out.sent lent.outlet)) }
    ensures fresh_door { IfOk result (λ lent. IsFresh (P.Asked.Inlet.tale lent.door)) }
    ensures unused { IfOk result (λ lent. IsUnused (P.Asked.Inlet.replies lent.door)) }
    ensures door_holds { IfOk result (λ lent. Holds (P.held ports.old) at.now.door (P.Asked.Inlet.tale lent.door)) }
    ensures inlets_out { IfOk result (λ lent. P.inlets_out ports.new ≡ P.inlets_out ports.old + length lent.inlets.items) }
    ensures outlets_out { OnOk result (P.outlets_out ports.new ≡ P.outlets_out ports.old + 1) }
    ensures doors_out { OnOk result (P.doors_out ports.new ≡ P.doors_out ports.old + 1) }
    ensures inlets_kept { IfErr result (λ stop. P.inlets_out ports.new ≡ P.inlets_out ports.old + length stop.0.inlets.items) }
    ensures outlets_kept { IfErr result (λ stop. P.outlets_out ports.new ≡ P.outlets_out ports.old + one_if stop.0.outlet) }
    ensures doors_kept { IfErr result (λ stop. P.doors_out ports.new ≡ P.doors_out ports.old + one_if stop.0.door) }
    ensures back { P.back ports.new ≡ P.back ports.old }
    ensures held { P.held ports.new ≡ P.held ports.old }
    ensures cause { IfErr result (λ stop. stop.1 ≡ LinkStop.Failed → Rose (P.faults ports.old) (P.faults ports.new)) }
    ensures never_falls { P.faults ports.old ≤ P.faults ports.new }
{
    let mut inlets = Vec::new(alloc);
    if let Err(stop) = ask_inlets(alloc, ports, &at.inlets, &mut inlets) {
        let objects = Objects {
            inlets,
            outlet: None,
            door: None,
        };
        return Err((objects, stop));
    }
    let outlet = match ports.outlet(alloc, &at.routes) {
        Ok(outlet) => outlet,
        Err(stop) => {
            let objects = Objects {
                inlets,
                outlet: None,
                door: None,
            };
            return Err((objects, stop));
        }
    };
    match ports.door(alloc, at.door) {
        Ok(door) => Ok(Lent {
            inlets,
            outlet,
            door,
        }),
        Err(stop) => {
            let objects = Objects {
                inlets,
                outlet: Some(outlet),
                door: None,
            };
            Err((objects, stop))
        }
    }
}

/// Asks for the inlets of these ports, and keeps them in order.
fn ask_inlets<P: Ports>(
    alloc: Global,
    ports: &mut P,
    numbers: &[u16],
    inlets: &mut Vec<P::In>,
) -> Result<(), LinkStop>
    requires { inlets.old.items ≡ [] }
    ensures asked { P.asked ports.new ≡ OnTold (P.asked ports.old) (λ before.
        before ++ map (λ port. Ask.Inlet port) (take (length inlets.new.items) numbers.now)) }
    ensures few { length inlets.new.items ≤ length numbers.now }
    ensures all { OnOk result (length inlets.new.items ≡ length numbers.now) }
    ensures fresh { All IsFresh (map P.In.tale inlets.new.items) }
    ensures holds { AllZip (Holds (P.held ports.old)) (take (length inlets.new.items) numbers.now) (map P.In.tale inlets.new.items) }
    ensures inlets_out { P.inlets_out ports.new ≡ P.inlets_out ports.old + length inlets.new.items }
    ensures outlets_out { P.outlets_out ports.new ≡ P.outlets_out ports.old }
    ensures doors_out { P.doors_out ports.new ≡ P.doors_out ports.old }
    ensures back { P.back ports.new ≡ P.back ports.old }
    ensures held { P.held ports.new ≡ P.held ports.old }
    ensures cause { result ≡ Err LinkStop.Failed → Rose (P.faults ports.old) (P.faults ports.new) }
    ensures never_falls { P.faults ports.old ≤ P.faults ports.new }
{
    let Ok(()) = inlets.reserve(numbers.len()) else {
        return Err(LinkStop::OutOfMemory);
    };
    for number in numbers {
        match ports.inlet(alloc, *number) {
            Ok(inlet) => inlets.push_reserved(inlet),
            Err(stop) => return Err(stop),
        }
    }
    Ok(())
}
