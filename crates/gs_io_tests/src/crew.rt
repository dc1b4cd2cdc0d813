ghost use Rattle.std.specs.Prelude.{◌≡◌};

use gs_crew::{Crew, Refused, ShortCrew, Task, ThreadCrew};
use std::alloc::AllocError;
use std::sync::Wait;
use std::sync::atomic::{AtomicBool, Ordering};
use std::thread;
use std::thread::{Scope, Threads};

/// A task that counts its runs.
#[derive(Drop)]
struct Runner {
    number: u32,
    runs: u32,
}

impl Task for Runner {
    type Name = u32;

    ghost name = { λ runner. runner.number };

    fn run(&mut self) {
        self.runs = self.runs.saturating_add(1);
    }
}

/// Starts a task and joins it. Tells whether it was started, and gives it back.
fn start_and_join<'s, 'e: 's, R: Threads + 'e, W: Crew>(
    rt: &'e R,
    scope: &Scope<'s, &'e ()>,
    crew: &mut W,
    number: u32,
) -> (bool, Runner)
    ensures { result.1.number ≡ number }
{
    match crew.start(scope, Runner { number, runs: 0 }) {
        Ok(running) => (true, running.join(rt)),
        Err(refused) => {
            let Refused { task } = refused;
            (false, task)
        }
    }
}

/// How many of five starts were made, and how many tasks ran, once each.
fn five_starts<R: Threads + Wait + Sync, W: Crew>(rt: &R, crew: &mut W) -> (u32, u32) {
    thread::scope(thread::scope_env(), rt, move |scope| {
        let mut started = 0u32;
        let mut ran = 0u32;
        for number in 0..5 {
            let (was_started, runner) = start_and_join(rt, scope, &mut *crew, number);
            started = started.saturating_add(u32::from(was_started));
            ran = ran.saturating_add(runner.runs);
        }
        (started, ran)
    })
}

#[test]
fn a_crew_of_threads_runs_each_task_once(rt: HostRuntime) {
    let mut crew = ThreadCrew::new(rt.alloc());
    assert!(rt; five_starts(&rt, &mut crew) == (5, 5));
}

#[test]
fn a_short_crew_hands_back_what_it_refuses(rt: HostRuntime) -> Result<(), AllocError> {
    let alloc = rt.alloc();
    let mut crew = ShortCrew::new(alloc, vec![in alloc; 2, 5]?);
    assert!(rt; five_starts(&rt, &mut crew) == (3, 3));
    assert!(rt; five_starts(&rt, &mut crew) == (5, 5));
    Ok(())
}

/// A task that comes to a place and waits there for another, for a while.
#[derive(Drop)]
struct Meeting<'a> {
    mine: &'a AtomicBool,
    other: &'a AtomicBool,
    met: bool,
}

impl Task for Meeting<'_> {
    type Name = u32;

    ghost name = { λ meeting. 0 };

    fn run(&mut self) {
        self.mine.store(true, Ordering::SeqCst);
        for _ in 0..10_000_000u64 {
            if self.other.load(Ordering::SeqCst) {
                self.met = true;
                return;
            }
            thread::yield_now();
        }
    }
}

/// Starts two tasks that wait for one another, and tells whether they met.
fn two_meet<'s, 'e: 's, R: Threads + 'e, W: Crew>(
    rt: &'e R,
    scope: &Scope<'s, &'e ()>,
    crew: &mut W,
    places: &'e [AtomicBool; 2],
) -> bool {
    let [here, there] = places;
    let first = Meeting {
        mine: here,
        other: there,
        met: false,
    };
    let second = Meeting {
        mine: there,
        other: here,
        met: false,
    };
    match (crew.start(scope, first), crew.start(scope, second)) {
        (Ok(first), Ok(second)) => first.join(rt).met && second.join(rt).met,
        _ => false,
    }
}

#[test]
fn tasks_run_at_the_same_time(rt: HostRuntime) {
    let mut crew = ThreadCrew::new(rt.alloc());
    let lent = &mut crew;
    let places = [AtomicBool::new(false), AtomicBool::new(false)];
    let shared = &places;
    let rt = &rt;
    let met = thread::scope(thread::scope_env(), rt, move |scope| {
        two_meet(rt, scope, &mut *lent, shared)
    });
    assert!(rt; met);
}
