ghost use Rattle.std.specs.Prelude.{◌≡◌, ◌≤◌, ◌<◌, ◌+◌, ◌++◌, length, map, None, IfSome};
ghost use Rattle.std.specs.List.{sum_by};
ghost use Rattle.gs_io.specs.Causes.{Rose};
ghost use Rattle.gs_net.specs.Lending.{returned_inlet};
ghost use Rattle.gs_net.specs.Tales.{OnTold};
ghost use Rattle.gs_node_run.specs.Lending.{in_order};
ghost use Rattle.gs_node_run.specs.inside.Lent.{one_if};

use crate::asking::Objects;
use gs_net::Ports;

/// Gives all back to the ports in the order in which it was got.
pub fn give_back<P: Ports>(ports: &mut P, objects: Objects<P>)
    requires inlets { length objects.inlets.items ≤ P.inlets_out ports.old }
    requires outlet { one_if objects.outlet ≤ P.outlets_out ports.old }
    requires door { one_if objects.door ≤ P.doors_out ports.old }
    ensures back { P.back ports.new ≡ OnTold (P.back ports.old) (λ before.
        before ++ in_order objects.inlets.items objects.outlet objects.door) }
    ensures inlets_out { P.inlets_out ports.new + length objects.inlets.items ≡ P.inlets_out ports.old }
    ensures outlets_out { P.outlets_out ports.new + one_if objects.outlet ≡ P.outlets_out ports.old }
    ensures doors_out { P.doors_out ports.new + one_if objects.door ≡ P.doors_out ports.old }
    ensures asked { P.asked ports.new ≡ P.asked ports.old }
    ensures held { P.held ports.new ≡ P.held ports.old }

    // An object that has failed is a failure of the ports.
    ensures inlet_counted { 0 < sum_by P.In.faults objects.inlets.items → Rose (P.faults ports.old) (P.faults ports.new) }
    ensures outlet_counted { IfSome objects.outlet (λ outlet.
        0 < P.Out.faults outlet → Rose (P.faults ports.old) (P.faults ports.new)) }
    ensures door_counted { IfSome objects.door (λ door.
        0 < P.Asked.Inlet.faults door → Rose (P.faults ports.old) (P.faults ports.new)) }
    ensures never_falls { P.faults ports.old ≤ P.faults ports.new }
{
    let Objects {
        inlets,
        outlet,
        door,
    } = objects;
    give_inlets_back(ports, inlets);
    if let Some(outlet) = outlet {
        ports.back_out(outlet);
    }
    if let Some(door) = door {
        ports.back_door(door);
    }
}

fn give_inlets_back<P: Ports>(ports: &mut P, inlets: Vec<P::In>)
    requires { length inlets.items ≤ P.inlets_out ports.old }
    ensures back { P.back ports.new ≡ OnTold (P.back ports.old) (λ before.
        before ++ map (λ inlet. returned_inlet inlet) inlets.items) }
    ensures inlets_out { P.inlets_out ports.new + length inlets.items ≡ P.inlets_out ports.old }
    ensures outlets_out { P.outlets_out ports.new ≡ P.outlets_out ports.old }
    ensures doors_out { P.doors_out ports.new ≡ P.doors_out ports.old }
    ensures asked { P.asked ports.new ≡ P.asked ports.old }
    ensures held { P.held ports.new ≡ P.held ports.old }
    ensures counted { 0 < sum_by P.In.faults inlets.items → Rose (P.faults ports.old) (P.faults ports.new) }
    ensures never_falls { P.faults ports.old ≤ P.faults ports.new }
{
    for inlet in inlets {
        ports.back_in(inlet);
    }
}
