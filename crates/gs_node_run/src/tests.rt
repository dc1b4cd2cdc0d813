use crate::{Left, run_node};
use gs_board::Seat;
use gs_cli::Status;
use gs_clock::{Clock, MemClock};
use gs_core::NodeEvent;
use gs_crew::ShortCrew;
use gs_io::{Gate, MemFiles, MemSink, PlainGate};
use gs_net::{MemPorts, Ports};
use std::alloc::{AllocError, Global};
use std::sync::Wait;
use std::sync::atomic::{AtomicU64, Ordering};
use std::test::Fail;
use std::thread::Threads;

/// The plan of four nodes of which the first has the others as neighbours.
const STAR: &str = "version = 1
cluster = 7
topology = \"edges\"
nodes = 4
edges = [[0, 1], [0, 2], [0, 3]]
lo = 10000
hi = 10001
mu = 2000
tick = 100
delay_min = 2
delay_max = 12
every = 1
losses = 3
age = 412
";

/// The files of all runs.
pub fn files(alloc: Global) -> Result<MemFiles, AllocError> {
    let mut files = Vec::new(alloc);
    let bytes = STAR.as_bytes().to_vec(alloc)?;
    files.push((String::from_str(alloc, "star.toml")?, bytes))?;
    Ok(MemFiles::new(alloc, files, Vec::new(alloc)))
}

/// What a node is run on: its words, the readings of its board's clock, and the number of the call of each
/// kind that fails, from 1; 0 for none.
#[derive(Clone, Copy, Debug)]
pub struct Trial<'t> {
    pub line: &'t str,
    pub readings: &'t [u64],
    pub clock: u64,
    pub write: u64,
    pub start: u64,
    pub say: u64,
}

/// The readings 0, 10, 20, .., 100, and then always 100.
const TENS: &[u64] = &[0, 10, 20, 30, 40, 50, 60, 70, 80, 90, 100];

impl<'t> Trial<'t> {
    /// One in which no call fails.
    pub fn of(line: &'t str) -> Self {
        Trial {
            line,
            readings: TENS,
            clock: 0,
            write: 0,
            start: 0,
            say: 0,
        }
    }
}

/// What a run ended with.
#[derive(Debug, Drop)]
pub struct Ended {
    pub status: Status,
    pub trace: Vec<u8>,
    /// What was said.
    pub said: Vec<u8>,
    /// The beacons that were told to each seat in order: the seat's place, the sender and the sequence.
    pub heard: Vec<(usize, u32, u64)>,
}

fn words(alloc: Global, line: &str) -> Result<Vec<String>, AllocError> {
    let mut words = Vec::new(alloc);
    for word in line.split(' ') {
        words.push(String::from_str(alloc, word)?)?;
    }
    Ok(words)
}

/// Adds the beacons that this seat was told.
fn add_heard<C: Clock>(
    heard: &mut Vec<(usize, u32, u64)>,
    place: usize,
    seat: &Seat<C>,
) -> Result<(), AllocError> {
    for told in seat.told() {
        if let NodeEvent::Deliver { hw: _, beacon } = told.event {
            heard.push((place, beacon.sender, beacon.seq))?;
        }
    }
    Ok(())
}

/// The beacons that the seats were told.
fn heard_in<C: Clock>(alloc: Global, left: &Left<C>) -> Result<Vec<(usize, u32, u64)>, AllocError> {
    let mut heard = Vec::new(alloc);
    if let Left::Served { board: _, seats } = left {
        for (place, seat) in seats.iter().enumerate() {
            add_heard(&mut heard, place, seat)?;
        }
    }
    Ok(heard)
}

/// A clock with these readings, or always 0 where there are none; the read of this number fails.
fn clock(alloc: Global, readings: &[u64], fails: u64) -> Result<MemClock, AllocError> {
    let mut readings = Vec::from_slice(alloc, readings)?;
    if readings.is_empty() {
        readings.push(0)?;
    }
    Ok(MemClock::new(readings, [fails].to_vec(alloc)?))
}

/// Runs a node over these ports.
pub fn run_over<R: Threads + Wait + Sync, P: Ports, G: Gate>(
    rt: &R,
    alloc: Global,
    trial: &Trial<'_>,
    ports: &mut P,
    gate: &G,
) -> Result<Ended, AllocError>
where
    P::In: Send,
    P::Asked: Send,
{
    let words = words(alloc, trial.line)?;
    let mut trace = MemSink::new(alloc, [trial.write].to_vec(alloc)?);
    let mut say = MemSink::new(alloc, [trial.say].to_vec(alloc)?);
    let end = run_node(
        rt,
        alloc,
        &words,
        &mut files(alloc)?,
        clock(alloc, trial.readings, trial.clock)?,
        MemClock::new([0].to_vec(alloc)?, Vec::new(alloc)),
        ports,
        &mut trace,
        &mut say,
        &mut ShortCrew::new(alloc, [trial.start].to_vec(alloc)?),
        gate,
    );
    Ok(Ended {
        status: end.status,
        trace: trace.bytes().to_vec(alloc)?,
        said: say.bytes().to_vec(alloc)?,
        heard: heard_in(alloc, &end.left)?,
    })
}

/// What a run over ports without an item ends with, and how many objects came back. The ports' call of this
/// number fails.
fn run<R: Threads + Wait + Sync, G: Gate>(
    rt: &R,
    alloc: Global,
    trial: &Trial<'_>,
    call: u64,
    gate: &G,
) -> Result<(Ended, usize), AllocError> {
    let mut ports = MemPorts::new(
        alloc,
        Vec::new(alloc),
        Vec::new(alloc),
        [call].to_vec(alloc)?,
    );
    let ended = run_over(rt, alloc, trial, &mut ports, gate)?;
    let back = ports
        .inlets()
        .len()
        .saturating_add(ports.outlets().len())
        .saturating_add(ports.doors().len());
    Ok((ended, back))
}

/// What a run is to end with.
#[derive(Clone, Copy, Debug)]
struct Wanted<'t> {
    status: Status,
    /// How many bytes its trace has.
    bytes: usize,
    /// How many objects came back.
    back: usize,
    said: &'t str,
}

/// Whether a run ends so, and in the same way where the first call of `say` fails, which then keeps nothing.
fn ends_so<R: Threads + Wait + Sync, G: Gate>(
    rt: &R,
    alloc: Global,
    trial: &Trial<'_>,
    call: u64,
    gate: &G,
    wanted: &Wanted<'_>,
) -> Result<bool, Fail> {
    let (ended, back) = run(rt, alloc, trial, call, gate)?;
    let unheard = Trial { say: 1, ..*trial };
    let (silent, silent_back) = run(rt, alloc, &unheard, call, gate)?;
    Ok(
        ended.status == wanted.status
            && ended.trace.len() == wanted.bytes
            && back == wanted.back
            && ended.said.as_slice() == wanted.said.as_bytes()
            && silent.status == ended.status
            && silent.trace.as_slice() == ended.trace.as_slice()
            && silent_back == back
            && silent.said.is_empty(),
    )
}

#[test]
fn a_node_ends_with_what_it_met(rt: HostRuntime) -> Result<(), Fail> {
    let gate = PlainGate::new(&rt);
    for (clock, write, call, start, status, bytes, back, said) in [
        (0, 0, 0, 0, Status::Done, 59, 2, ""),
        (1, 0, 0, 0, Status::ClockFault, 0, 0, "clock failed\n"),
        (2, 0, 0, 0, Status::ClockFault, 32, 2, "clock failed\n"),
        (3, 0, 0, 0, Status::ClockFault, 41, 2, "clock failed\n"),
        (4, 0, 0, 0, Status::ClockFault, 50, 2, "clock failed\n"),
        (0, 1, 0, 0, Status::WriteFault, 0, 2, ""),
        (0, 2, 0, 0, Status::WriteFault, 32, 2, ""),
        (0, 3, 0, 0, Status::WriteFault, 41, 2, ""),
        (0, 4, 0, 0, Status::WriteFault, 50, 2, ""),
        (0, 0, 1, 0, Status::LinkFault, 0, 0, "link failed\n"),
        (0, 0, 2, 0, Status::LinkFault, 0, 1, "link failed\n"),
        (0, 0, 0, 1, Status::NoThread, 32, 2, "no thread\n"),
    ] {
        let trial = Trial {
            line: "node base:1 0 3",
            readings: TENS,
            clock,
            write,
            start,
            say: 0,
        };
        let wanted = Wanted {
            status,
            bytes,
            back,
            said,
        };
        let as_said = ends_so(&rt, rt.alloc(), &trial, call, &gate, &wanted)?;
        assert!(rt;
            as_said,
            "clock {clock} write {write} call {call} start {start}"
        );
    }
    Ok(())
}

#[test]
fn ports_that_lend_too_little_get_all_back(rt: HostRuntime) -> Result<(), Fail> {
    let gate = PlainGate::new(&rt);
    for (call, start, status, bytes, back, said) in [
        (0, 0, Status::Done, 122, 5, ""),
        (1, 0, Status::LinkFault, 0, 0, "link failed\n"),
        (2, 0, Status::LinkFault, 0, 1, "link failed\n"),
        (3, 0, Status::LinkFault, 0, 2, "link failed\n"),
        (4, 0, Status::LinkFault, 0, 3, "link failed\n"),
        (5, 0, Status::LinkFault, 0, 4, "link failed\n"),
        (0, 2, Status::NoThread, 32, 5, "no thread\n"),
        (0, 4, Status::NoThread, 32, 5, "no thread\n"),
    ] {
        let trial = Trial {
            start,
            ..Trial::of("node star.toml 0 10")
        };
        let wanted = Wanted {
            status,
            bytes,
            back,
            said,
        };
        let as_said = ends_so(&rt, rt.alloc(), &trial, call, &gate, &wanted)?;
        assert!(rt; as_said, "call {call} start {start}");
    }
    Ok(())
}

#[test]
fn a_node_that_is_not_one_is_refused(rt: HostRuntime) -> Result<(), Fail> {
    let gate = PlainGate::new(&rt);
    let usage = "usage: gradsync plan, play, trace, audit, replay, gen or node\n";
    for (line, status, said) in [
        ("node base:3 3 3", Status::InputRefused, "node refused: 3\n"),
        (
            "node base:x 0 3",
            Status::PlanRefused,
            "plan refused: number\n",
        ),
        (
            "node plan.toml 0 3",
            Status::ReadFault,
            "read failed: plan.toml\n",
        ),
        ("node base:1 0 0", Status::Usage, usage),
        ("nodes base:1 0 3", Status::Usage, usage),
    ] {
        let wanted = Wanted {
            status,
            bytes: 0,
            back: 0,
            said,
        };
        let as_said = ends_so(&rt, rt.alloc(), &Trial::of(line), 0, &gate, &wanted)?;
        assert!(rt; as_said, "{line}");
    }
    Ok(())
}

#[test]
fn a_clock_that_ends_or_falls_is_told(rt: HostRuntime) -> Result<(), Fail> {
    let gate = PlainGate::new(&rt);
    let last = 4_611_686_018_427_387_903;
    for (readings, status, bytes, back, said) in [
        (
            [last, 4_611_686_018_427_387_904].as_slice(),
            Status::ClockEnd,
            32,
            2,
            "clock end\n",
        ),
        (
            [4_611_686_018_427_387_904].as_slice(),
            Status::ClockEnd,
            0,
            0,
            "clock end\n",
        ),
        (
            [10, 5].as_slice(),
            Status::ClockFault,
            32,
            2,
            "clock fell: 10 5\n",
        ),
    ] {
        let trial = Trial {
            readings,
            ..Trial::of("node base:1 0 1")
        };
        let wanted = Wanted {
            status,
            bytes,
            back,
            said,
        };
        let as_said = ends_so(&rt, rt.alloc(), &trial, 0, &gate, &wanted)?;
        assert!(rt; as_said, "{said}");
    }
    Ok(())
}

#[test]
fn a_trace_that_is_cut_off_is_a_front_of_the_whole(rt: HostRuntime) -> Result<(), Fail> {
    let gate = PlainGate::new(&rt);
    let whole = Trial::of("node base:1 0 3");
    let (done, _) = run(&rt, rt.alloc(), &whole, 0, &gate)?;
    for k in 1..5 {
        for trial in [Trial { clock: k, ..whole }, Trial { write: k, ..whole }] {
            let (cut, _) = run(&rt, rt.alloc(), &trial, 0, &gate)?;
            assert!(rt; done.trace.starts_with(cut.trace.as_slice()), "{k}");
        }
    }
    Ok(())
}

/// A gate that keeps for how many units it was asked to rest last.
#[derive(Drop)]
struct PaceGate {
    units: AtomicU64,
}

impl Gate for PaceGate {
    fn enter(&self, _piece: u32) {}

    fn leave(&self, _piece: u32) {}

    fn rest(&self, units: u64) {
        self.units.store(units, Ordering::SeqCst);
    }
}

/// A tick is due every 100 quanta, of which each takes 10,000 units at least.
#[test]
fn a_timer_rests_for_half_of_the_time_in_which_a_tick_is_due(rt: HostRuntime) -> Result<(), Fail> {
    let gate = PaceGate {
        units: AtomicU64::new(0),
    };
    let (ended, _) = run(&rt, rt.alloc(), &Trial::of("node base:1 0 3"), 0, &gate)?;
    assert!(rt; ended.status == Status::Done);
    assert_eq!(rt; gate.units.load(Ordering::SeqCst), 500_000);
    Ok(())
}
