ghost use Rattle.std.specs.Prelude.{◌≡◌, ◌++◌, IfOk, OnOk};
ghost use Rattle.gs_beacon.specs.Beacons.{IsBeacon, bytes_of};
ghost use Rattle.gs_core.specs.State.{CarriesBeacon};
ghost use Rattle.gs_trace.specs.Nodes.{event_bytes, head_bytes};
ghost use Rattle.gs_trace.specs.Starts.{FitsNode};

use crate::numbers::push_u64;
use crate::start::NodeStart;
use byteorder::{BigEndian, ByteOrder};
use gs_beacon::{Beacon, encode};
use gs_core::NodeEvent;
use gs_units::NodeParams;
use std::alloc::{AllocError, Global};

/// "GCSN", the version 1 and 0, as a big-endian number.
pub(crate) const TAG: u64 = 0x4743_534e_0001_0000;

/// The head of the trace of the node of these parameters: `docs/FORMATS.md`, "The trace of a node".
pub fn node_head(params: &NodeParams, start: &NodeStart) -> [u8; 32]
    requires { FitsNode start.now }
    ensures { result ≡ head_bytes params.now.cluster params.now.node start.now }
{
    let NodeStart { l0, hw } = *start;
    head(params.cluster, params.node, l0, hw)
}

/// The head of the trace of a node.
fn head(cluster: u32, node: u32, l0: u64, hw: u64) -> [u8; 32]
    ensures { result ≡ head_bytes cluster node (record { l0 = l0; hw = hw }) }
{
    let mut bytes = [0; 32];
    BigEndian::write_u64(&mut bytes, TAG);
    BigEndian::write_u32(&mut bytes[8..], cluster);
    BigEndian::write_u32(&mut bytes[12..], node);
    BigEndian::write_u64(&mut bytes[16..], l0);
    BigEndian::write_u64(&mut bytes[24..], hw);
    bytes
}

/// An event in the trace of a node.
pub fn node_event(alloc: Global, event: &NodeEvent) -> Result<Vec<u8>, AllocError>
    requires { CarriesBeacon event.now }
    ensures { IfOk result (λ bytes. bytes.items ≡ event_bytes event.now) }
{
    let mut bytes = Vec::new(alloc);
    match event {
        NodeEvent::Tick { hw } => {
            bytes.push(1)?;
            push_u64(&mut bytes, *hw)?;
        }
        NodeEvent::Deliver { hw, beacon } => {
            bytes.push(2)?;
            push_u64(&mut bytes, *hw)?;
            push_beacon(&mut bytes, beacon)?;
        }
    }
    Ok(bytes)
}

/// Adds a beacon at the end.
fn push_beacon(bytes: &mut Vec<u8>, beacon: &Beacon) -> Result<(), AllocError>
    requires { IsBeacon beacon.now }
    ensures { OnOk result (bytes.new.items ≡ bytes.old.items ++ bytes_of beacon.now) }
{
    bytes.extend_from_slice(&encode(beacon))
}
