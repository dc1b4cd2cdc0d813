ghost use Rattle.std.specs.Prelude.{◌≡◌, ◌<◌, ◌+◌, ◌||◌, nat_eq, length, Some, IfSome};
ghost use Rattle.std.specs.List.{position};
ghost use Rattle.gs_units.specs.Params.{AreValid, IsSound};
ghost use Rattle.gs_beacon.specs.Beacons.{IsBeacon};
ghost use Rattle.gs_beacon.specs.declared.beacon.Beacon.{Beacon};
ghost use Rattle.gs_core.specs.Node.{link_place};
ghost use Rattle.gs_core.specs.Steps.{is_ahead, is_end};
ghost use Rattle.gs_callers.specs.Wanted.{IsWanted, is_wanted, only_wanted, spelled_by, wanted_beacon};

use gs_beacon::{Beacon, decode};
use gs_units::{END, Link, NodeParams};

/// The beacon of a datagram of this neighbour, where it is wanted: it is one of the node's cluster and
/// the neighbour's own, and what it tells stays below `END` when it is raised for its way. No memory, no
/// lock.
pub fn wanted_beacon(params: &NodeParams, neighbour: u32, datagram: &[u8]) -> Option<Beacon>
    requires { AreValid params.now }
    ensures value { result ≡ wanted_beacon params.now neighbour datagram.now }
    ensures valid { IfSome result IsBeacon }
    ensures wanted { IfSome result (IsWanted params.now neighbour datagram.now) }

    // And no wanted datagram is passed over.
    ensures every_wanted { (b : Beacon) → IsWanted params.now neighbour datagram.now b → result ≡ Some b }
{
    only_wanted(params, neighbour, spelled_by(datagram))
}

/// The beacon that a datagram of this neighbour spells, where it makes it a wanted one.
fn only_wanted(params: &NodeParams, neighbour: u32, beacon: Option<Beacon>) -> Option<Beacon>
    requires params { AreValid params.now }
    requires beacon { IfSome beacon IsBeacon }
    ensures value { result ≡ only_wanted params.now neighbour beacon }
    ensures valid { IfSome result IsBeacon }
{
    let beacon = beacon?;
    if is_wanted(params, neighbour, &beacon) {
        return Some(beacon);
    }
    None
}

/// The beacon that bytes spell, if they spell one.
fn spelled_by(bytes: &[u8]) -> Option<Beacon>
    ensures value { result ≡ spelled_by bytes.now }
    ensures valid { IfSome result IsBeacon }
{
    match decode(bytes) {
        Ok(beacon) => Some(beacon),
        Err(_) => None,
    }
}

/// Whether this beacon of the neighbour makes a datagram wanted.
fn is_wanted(params: &NodeParams, neighbour: u32, beacon: &Beacon) -> bool
    requires params { AreValid params.now }
    requires beacon { IsBeacon beacon.now }
    ensures { result ≡ is_wanted params.now neighbour beacon.now }
{
    if beacon.cluster != params.cluster || beacon.sender != neighbour {
        return false;
    }
    let links = params.links.as_slice();
    match place(links, neighbour) {
        Some(i) => !is_ahead(&links[i], beacon),
        None => true,
    }
}

/// The place of the link to a node.
fn place(links: &[Link], node: u32) -> Option<usize>
    ensures place { result ≡ position (λ link. nat_eq link.node node) links.now }
    ensures within { IfSome result (λ i. i < length links.now) }
{
    links.iter().position(|link| link.node == node)
}

/// Whether what a beacon tells reaches `END` when it is raised for its way.
fn is_ahead(link: &Link, beacon: &Beacon) -> bool
    requires link { IsSound link.now }
    requires beacon { IsBeacon beacon.now }
    ensures { result ≡ (is_end (beacon.now.l + link.now.comp) || is_end (beacon.now.m + link.now.jump)) }
{
    beacon.l + link.comp >= END || beacon.m + link.jump >= END
}
