use gs_io::Failed;
use gs_net::{
    Door, Got, Held, Inlet, Item, LinkStop, MemDoor, MemInlet, MemOutlet, MemPorts, Outlet,
    Payload, Ports,
};
use std::alloc::{AllocError, Global};

/// A datagram of so many bytes, each of which has this value.
fn datagram(alloc: Global, value: u8, len: usize) -> Result<Item, AllocError> {
    Ok(Item::Datagram(Payload::from_vec(vec![in alloc; value; len]?)))
}

/// A datagram of 3 bytes, a quiet mark, and a datagram of 70 bytes.
fn three_items(alloc: Global) -> Result<Vec<Item>, AllocError> {
    let mut items = Vec::new(alloc);
    items.push(datagram(alloc, 1, 3)?)?;
    items.push(Item::Quiet)?;
    items.push(datagram(alloc, 2, 70)?)?;
    Ok(items)
}

#[test]
fn an_inlet_gives_its_items(rt: HostRuntime) -> Result<(), AllocError> {
    let alloc = rt.alloc();
    let mut inlet = MemInlet::new(three_items(alloc)?, vec![in alloc; 2, 6]?);
    let mut into = [0u8; 64];
    assert!(rt; inlet.receive(&mut into) == Ok(Got::Datagram(3)));
    assert!(rt; into[..4] == [1, 1, 1, 0]);
    assert!(rt; inlet.receive(&mut into) == Err(Failed));
    assert!(rt; inlet.receive(&mut into) == Ok(Got::Quiet));
    assert!(rt; inlet.receive(&mut into) == Ok(Got::Datagram(64)));
    assert!(rt; into == [2u8; 64]);
    assert!(rt; inlet.receive(&mut into) == Ok(Got::Ended));
    assert!(rt; inlet.receive(&mut into) == Err(Failed));
    assert!(rt; inlet.receive(&mut into) == Ok(Got::Ended));
    Ok(())
}

#[test]
fn a_door_keeps_its_replies(rt: HostRuntime) -> Result<(), AllocError> {
    let alloc = rt.alloc();
    let mut door = MemDoor::new(alloc, three_items(alloc)?, vec![in alloc; 3]?);
    let mut into = [0u8; 64];
    assert!(rt; door.receive(&mut into) == Ok(Got::Datagram(3)));
    assert!(rt; door.reply(&[7; 24]) == Ok(()));
    assert!(rt; door.reply(&[8; 24]) == Err(Failed));
    assert!(rt; door.receive(&mut into) == Ok(Got::Quiet));
    assert!(rt; door.reply(&[9; 24]) == Ok(()));
    assert!(rt; door.replies() == [[7; 24], [9; 24]].as_slice());
    Ok(())
}

#[test]
fn an_outlet_keeps_what_it_takes(rt: HostRuntime) -> Result<(), AllocError> {
    let alloc = rt.alloc();
    let mut outlet = MemOutlet::new(alloc, vec![in alloc; 2]?);
    assert!(rt; outlet.send(5, &[1; 40]) == Ok(()));
    assert!(rt; outlet.send(6, &[2; 40]) == Err(Failed));
    assert!(rt; outlet.send(6, &[3; 40]) == Ok(()));
    assert!(rt; outlet.taken() == [(5, [1; 40]), (6, [3; 40])].as_slice());
    Ok(())
}

/// What is held for two ports, one of which is given twice.
fn held_thrice(alloc: Global) -> Result<Vec<Held>, AllocError> {
    let mut held = Vec::new(alloc);
    for (port, value) in [(40_000, 1), (40_001, 2), (40_000, 3)] {
        let mut items = Vec::new(alloc);
        items.push(datagram(alloc, value, 3)?)?;
        held.push(Held {
            port,
            items,
            fails: vec![in alloc; 2]?,
        })?;
    }
    Ok(held)
}

/// Lends an inlet, takes one item from it, and takes it back. Tells the first byte of the item.
fn first_byte<P: Ports>(ports: &mut P, alloc: Global, port: u16) -> Result<Option<u8>, LinkStop> {
    let mut inlet = ports.inlet(alloc, port)?;
    let mut into = [0u8; 64];
    let got = inlet.receive(&mut into);
    ports.back_in(inlet);
    match got {
        Ok(Got::Datagram(_)) => Ok(Some(into[0])),
        _ => Ok(None),
    }
}

#[test]
fn ports_lend_what_they_hold(rt: HostRuntime) -> Result<(), AllocError> {
    let alloc = rt.alloc();
    let mut ports = MemPorts::new(
        alloc,
        held_thrice(alloc)?,
        Vec::new(alloc),
        vec![in alloc; 3]?,
    );
    for (port, want) in [
        (40_000, Ok(Some(1))),
        (40_000, Ok(Some(1))),
        (40_001, Err(LinkStop::Failed)),
        (40_001, Ok(Some(2))),
        (40_002, Ok(None)),
    ] {
        assert!(rt; first_byte(&mut ports, alloc, port) == want);
    }
    assert_eq!(rt; ports.inlets().len(), 4);
    Ok(())
}

/// Lends an outlet and a door, fails each once, and takes them back.
fn fail_each<P: Ports>(ports: &mut P, alloc: Global) -> Result<bool, LinkStop> {
    let mut outlet = ports.outlet(alloc, &[(1, 40_003), (2, 40_004)])?;
    let Ok(mut door) = ports.door(alloc, 40_001) else {
        ports.back_out(outlet);
        return Err(LinkStop::Failed);
    };
    let mut into = [0u8; 64];
    let taken = door.receive(&mut into) == Ok(Got::Datagram(3))
        && outlet.send(1, &[7; 40]) == Ok(());
    let failed = door.receive(&mut into).is_err() && outlet.send(2, &[8; 40]).is_err();
    ports.back_door(door);
    ports.back_out(outlet);
    Ok(taken && failed)
}

#[test]
fn ports_take_back_what_they_lent(rt: HostRuntime) -> Result<(), AllocError> {
    let alloc = rt.alloc();
    let mut ports = MemPorts::new(
        alloc,
        held_thrice(alloc)?,
        vec![in alloc; 2]?,
        Vec::new(alloc),
    );
    assert!(rt; fail_each(&mut ports, alloc) == Ok(true));
    assert_eq!(rt; ports.doors().len(), 1);
    for outlet in ports.outlets() {
        assert!(rt; outlet.taken() == [(1, [7; 40])].as_slice());
    }
    assert_eq!(rt; ports.outlets().len(), 1);
    assert!(rt; ports.inlets().is_empty());
    Ok(())
}
