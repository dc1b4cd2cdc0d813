use gs_cli::Status;
use gs_clock::MemClock;
use gs_io::MemSink;
use gs_stamp::MemStore;
use gs_stamp_run::{StampEnd, run_stamp};
use std::alloc::{AllocError, Global};

const USAGE: &str = "usage: gradsync plan, play, trace, audit, replay, gen or node\n";

/// A store with a ceiling of 2^62.
const ENDED: [u8; 18] = *b"\x01\x40\0\0\0\0\0\0\0\0\0\0\0\0\0\0\0\0";

fn words(alloc: Global, count: &str) -> Result<Vec<String>, AllocError> {
    let mut words = Vec::new(alloc);
    for word in ["stamp", "store", count] {
        words.push(String::from_str(alloc, word)?)?;
    }
    Ok(words)
}

/// The calls of a run that fail, 0 for none.
#[derive(Clone, Copy)]
struct Fails {
    clock: u64,
    store: u64,
    sink: u64,
}

const NONE: Fails = Fails {
    clock: 0,
    store: 0,
    sink: 0,
};

/// Whether a run over these bytes, whose clock gives this reading and then 3, ends with this status and
/// this text.
fn ends(
    alloc: Global,
    bytes: [u8; 18],
    count: &str,
    reading: u64,
    fails: Fails,
    status: Status,
    text: &str,
) -> Result<bool, AllocError> {
    let mut sink = MemSink::new(alloc, vec![in alloc; fails.sink]?);
    let store = MemStore::new(alloc, bytes, vec![in alloc; fails.store]?);
    let mut readings = vec![in alloc; reading]?;
    readings.push(3)?;
    let clock = MemClock::new(readings, vec![in alloc; fails.clock]?);
    let words = words(alloc, count)?;
    let end = run_stamp(alloc, &words, store, clock, &mut sink);
    Ok(end.status == status && sink.bytes() == text.as_bytes())
}

#[test]
fn stamps_with_their_lines(rt: HostRuntime) -> Result<(), AllocError> {
    let alloc = rt.alloc();
    let late = (1 << 62) - 1_048_577;
    let line = "4611686018426339327\nstamp end\n";
    assert!(rt; ends(alloc, [0; 18], "3", 5, NONE, Status::Done, "5\n6\n7\n")?);
    assert!(rt; ends(alloc, [0; 18], "3", late, NONE, Status::StampEnd, line)?);
    assert!(rt; ends(alloc, ENDED, "3", 5, NONE, Status::StampEnd, "stamp end\n")?);
    assert!(rt; ends(alloc, [0; 18], "0", 5, NONE, Status::Usage, USAGE)?);
    assert!(rt; ends(alloc, [0; 18], "1000001", 5, NONE, Status::Usage, USAGE)?);
    Ok(())
}

#[test]
fn each_failure_has_its_status(rt: HostRuntime) -> Result<(), AllocError> {
    let alloc = rt.alloc();
    let clock = Fails { clock: 2, ..NONE };
    let open = Fails { store: 1, ..NONE };
    let raise = Fails { store: 6, ..NONE };
    let sink = Fails { sink: 2, ..NONE };
    let line = Fails { sink: 1, ..NONE };
    assert!(rt;
        ends(
            alloc,
            [0; 18],
            "3",
            5,
            clock,
            Status::ClockFault,
            "5\nclock failed\n"
        )?
    );
    assert!(rt;
        ends(
            alloc,
            [0; 18],
            "3",
            5,
            open,
            Status::StoreFault,
            "store failed\n"
        )?
    );
    assert!(rt;
        ends(
            alloc,
            [0; 18],
            "3",
            5,
            raise,
            Status::StoreFault,
            "store failed\n"
        )?
    );
    assert!(rt; ends(alloc, [0; 18], "3", 5, sink, Status::WriteFault, "5\n")?);
    assert!(rt; ends(alloc, ENDED, "3", 5, line, Status::WriteFault, "")?);
    Ok(())
}

/// What a run of three stamps leaves behind a crash that fills with this byte.
fn left_by(alloc: Global, store: MemStore, fill: u8) -> Result<MemStore, AllocError> {
    let mut sink = MemSink::new(alloc, Vec::new(alloc));
    let clock = MemClock::new(vec![in alloc; 5]?, Vec::new(alloc));
    let words = words(alloc, "3")?;
    let end = run_stamp(alloc, &words, store, clock, &mut sink);
    Ok(end.store.crash(fill))
}

#[test]
fn runs_go_on_behind_a_crash(rt: HostRuntime) -> Result<(), AllocError> {
    let alloc = rt.alloc();
    let first = left_by(alloc, MemStore::new(alloc, [0; 18], Vec::new(alloc)), 255)?;
    assert!(rt; *first.bytes() == *b"\x01\0\0\0\0\0\x10\0\x05\0\0\0\0\0\0\0\0\0");
    let second = left_by(alloc, first, 0)?;
    assert!(rt; *second.bytes() == *b"\x01\0\0\0\0\0\x10\0\x05\x01\0\0\0\0\0\x20\0\x05");
    Ok(())
}
