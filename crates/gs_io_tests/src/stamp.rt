use gs_io::Failed;
use gs_stamp::{FileStore, MemStore, OpenStop, StampFault, Stamper, Store, stamps_rise};
use std::alloc::{AllocError, Global};
use std::{env, fs, process};

/// A store after two runs, the first with stamps 5, 6 and 7.
const TWO_RUNS: [u8; 18] = *b"\x01\0\0\0\0\0\x10\0\x05\x01\0\0\0\0\0\x20\0\x05";

/// The store after it was opened and asked for a stamp at each of these readings, and the last
/// stamp, if there is one.
fn after<S: Store>(store: S, clocks: &[u64]) -> (S, Option<u64>) {
    match Stamper::open(store) {
        Err((_stop, store)) => (store, None),
        Ok(mut stamper) => {
            let mut last = None;
            for clock in clocks {
                last = stamper.stamp(*clock).ok();
            }
            (stamper.into_store(), last)
        }
    }
}

#[test]
fn stamps_over_zero_bytes(rt: HostRuntime) {
    let alloc = rt.alloc();
    let store = MemStore::new(alloc, [0; 18], Vec::new(alloc));
    let (store, first) = after(store, &[5]);
    assert!(rt; first == Some(5));
    let store = MemStore::new(alloc, [0; 18], Vec::new(alloc));
    let (store, last) = after(store, &[5, 5, 3]);
    assert!(rt; last == Some(7));
    assert!(rt; *store.bytes() == *b"\x01\0\0\0\0\0\x10\0\x05\0\0\0\0\0\0\0\0\0");
    let (store, next) = after(store, &[5]);
    stamps_rise();
    assert!(rt; next == Some(1_048_581));
    assert!(rt; *store.bytes() == TWO_RUNS);
}

/// What the store begins with after it was stopped behind so many calls and crashed.
fn begins_after(alloc: Global, calls: u64, fill: u8) -> Result<Option<u64>, AllocError> {
    let store = MemStore::new(alloc, TWO_RUNS, vec![in alloc; calls.saturating_add(1)]?);
    let (stopped, _stamp) = after(store, &[5]);
    let (_store, first) = after(stopped.crash(fill), &[0]);
    Ok(first)
}

#[test]
fn crashes_at_each_moment(rt: HostRuntime) -> Result<(), AllocError> {
    let alloc = rt.alloc();
    for calls in 0..9 {
        for fill in [0, 1, 255] {
            let raised = calls == 8 || calls == 7 && fill == 1;
            let wanted = if raised { 3_145_733 } else { 2_097_157 };
            assert!(rt; begins_after(alloc, calls, fill)? == Some(wanted));
        }
    }
    Ok(())
}

#[test]
fn full_comes_at_the_end_and_closed_after_a_failure(rt: HostRuntime) -> Result<(), AllocError> {
    let alloc = rt.alloc();
    let most = (1 << 62) - 1_048_577;
    let store = MemStore::new(alloc, [0; 18], vec![in alloc; 7]?);
    match Stamper::open(store) {
        Err(_) => assert!(rt; false),
        Ok(mut stamper) => {
            assert!(rt; stamper.stamp(most + 1) == Err(StampFault::Full));
            assert!(rt; stamper.stamp(most) == Ok(most));
            assert!(rt; stamper.stamp(0) == Err(StampFault::Full));
        }
    }
    let store = MemStore::new(alloc, [0; 18], vec![in alloc; 4]?);
    match Stamper::open(store) {
        Err(_) => assert!(rt; false),
        Ok(mut stamper) => {
            assert!(rt; stamper.stamp(5) == Err(StampFault::Failed));
            assert!(rt; stamper.stamp(u64::MAX) == Err(StampFault::Closed));
            assert!(rt;
                *stamper.into_store().bytes() == *b"\0\0\0\0\0\0\x10\0\x05\0\0\0\0\0\0\0\0\0"
            );
        }
    }
    Ok(())
}

#[test]
fn a_store_that_fails_or_is_full_is_not_opened(rt: HostRuntime) -> Result<(), AllocError> {
    let alloc = rt.alloc();
    for failing in [1, 2] {
        let store = MemStore::new(alloc, TWO_RUNS, vec![in alloc; failing]?);
        let stop = Stamper::open(store).err().map(|(stop, _store)| stop);
        assert!(rt; stop == Some(OpenStop::Failed));
    }
    let full = *b"\x01\x40\0\0\0\0\0\0\0\0\0\0\0\0\0\0\0\0";
    let store = MemStore::new(alloc, full, Vec::new(alloc));
    let stop = Stamper::open(store).err().map(|(stop, _store)| stop);
    assert!(rt; stop == Some(OpenStop::Full));
    Ok(())
}

#[test]
fn stamps_go_on_in_a_file_where_the_run_before_left_it(rt: HostRuntime) -> Result<(), AllocError> {
    let alloc = rt.alloc();
    let temp = env::temp_dir(&rt).expect(&rt, "a folder for temporary files");
    let name = format!(in alloc; "{}/gs_stamp_{}", temp.display(), process::id(rt.process()))?;
    let (_store, first) = after(FileStore::new(alloc, &rt, name.as_str())?, &[5]);
    let (_store, second) = after(FileStore::new(alloc, &rt, name.as_str())?, &[5]);
    let bytes = fs::read(&rt, name.as_str()).expect(&rt, "the file is read");
    fs::remove_file(&rt, name.as_str()).expect(&rt, "the file is removed");
    let mut nowhere = FileStore::new(alloc, &rt, "")?;
    assert!(rt; first == Some(5));
    assert!(rt; second == Some(1_048_581));
    assert!(rt; bytes.as_slice() == TWO_RUNS.as_slice());
    assert!(rt; nowhere.sync() == Err(Failed));
    Ok(())
}
