use gs_clock::{Clock, MemClock, MonoClock};
use gs_io::Failed;
use std::alloc::AllocError;
use std::io::{self, ErrorKind};
use std::thread;
use std::time::{self, Duration};

#[test]
fn the_last_reading_comes_again_and_a_failed_call_takes_none(
    rt: HostRuntime,
) -> Result<(), AllocError> {
    let alloc = rt.alloc();
    let mut readings = vec![in alloc; 7]?;
    readings.push(5)?;
    let mut clock = MemClock::new(readings, vec![in alloc; 2]?);
    assert!(rt; clock.read() == Ok(7));
    assert!(rt; clock.read() == Err(Failed));
    assert!(rt; clock.read() == Ok(5));
    assert!(rt; clock.read() == Ok(5));
    Ok(())
}

/// A clock of which no moment can be read.
#[derive(Clone, Copy)]
struct Stopped;

impl time::Clock for Stopped {
    fn monotonic(&self) -> io::Result<Duration> {
        Err(io::Error::from(ErrorKind::Unsupported))
    }

    fn since_1970(&self) -> io::Result<Duration> {
        Err(io::Error::from(ErrorKind::Unsupported))
    }
}

#[test]
fn readings_of_the_machine_rise(rt: HostRuntime) {
    let mut clock = MonoClock::new(&rt);
    let mut twin = clock.twin();
    let first = clock.read().unwrap_or(u64::MAX);
    thread::sleep(&rt, Duration::from_nanos(1000));
    let second = twin.read().unwrap_or(0);
    assert!(rt; first < second);
    let mut stopped = MonoClock::new(Stopped);
    assert!(rt; stopped.read() == Err(Failed));
    assert!(rt; stopped.twin().read() == Err(Failed));
}
