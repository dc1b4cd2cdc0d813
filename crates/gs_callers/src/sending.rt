ghost use Rattle.std.specs.Prelude.{◌≡◌, ◌≤◌, ◌++◌, ℕ, take, IfSome, OnOk, OnErr};
ghost use Rattle.gs_beacon.specs.Beacons.{IsBeacon};
ghost use Rattle.gs_io.specs.Causes.{Rose};
ghost use Rattle.gs_net.specs.Tales.{OnTold};
ghost use Rattle.gs_callers.specs.Sends.{sends_by, to_each};

use gs_beacon::{Beacon, encode};
use gs_io::Failed;
use gs_net::Outlet;
use gs_units::Link;

/// Sends the beacon of a tick, if there is one, once to each neighbour in order, up to the first failure.
pub(crate) fn send_beacon<O: Outlet>(
    outlet: &mut O,
    links: &[Link],
    beacon: Option<Beacon>,
) -> Result<(), Failed>
    requires { IfSome beacon IsBeacon }
    ensures ok { OnOk result
        (O.sent outlet.new ≡ OnTold (O.sent outlet.old) (λ taken. taken ++ sends_by links.now beacon)) }
    ensures err { OnErr result ((k : ℕ)
        × (O.sent outlet.new ≡ OnTold (O.sent outlet.old) (λ taken. taken ++ take k (sends_by links.now beacon)))) }
    ensures cause { OnErr result (Rose (O.faults outlet.old) (O.faults outlet.new)) }
    ensures never_falls { O.faults outlet.old ≤ O.faults outlet.new }
{
    match beacon {
        Some(beacon) => send_to_each(outlet, links, &encode(&beacon)),
        None => Ok(()),
    }
}

/// Sends a datagram once to each neighbour in order, up to the first failure.
fn send_to_each<O: Outlet>(
    outlet: &mut O,
    links: &[Link],
    datagram: &[u8; 40],
) -> Result<(), Failed>
    ensures ok { OnOk result
        (O.sent outlet.new ≡ OnTold (O.sent outlet.old) (λ taken. taken ++ to_each links.now datagram.now)) }
    ensures err { OnErr result ((k : ℕ)
        × (O.sent outlet.new ≡ OnTold (O.sent outlet.old) (λ taken. taken ++ to_each (take k links.now) datagram.now))) }
    ensures cause { OnErr result (Rose (O.faults outlet.old) (O.faults outlet.new)) }
    ensures never_falls { O.faults outlet.old ≤ O.faults outlet.new }
{
    for link in links {
        outlet.send(link.node, datagram)?;
    }
    Ok(())
}
