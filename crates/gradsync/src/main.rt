//! gradsync: plans and plays networks of clocks, runs their nodes, and issues stamps, from the command
//! line.
#![tactic(auto)]

use gs_cli::Status;
use gs_clock::MonoClock;
use gs_crew::ThreadCrew;
use gs_io::{OsFiles, PlainGate, StdSink};
use gs_link::UdpPorts;
use gs_node_run::run_node;
use gs_stamp::FileStore;
use gs_stamp_run::run_stamp;
use gs_tool::run_tool;
use std::env;
use std::io::{self, ErrorKind};
use std::process::ExitCode;
use std::rt::Env;

/// The words behind the program's name.
fn words(rt: &(impl Env + AllocGlobal)) -> io::Result<Vec<String>> {
    let words = env::args(rt)?.skip(1).collect(rt.alloc())?;
    Ok(words)
}

/// Issues stamps from a real file, at the readings of the monotonic clock.
fn stamp(rt: &HostRuntime, words: &[String]) -> Status {
    let name = match words {
        [_stamp, file, _count] => file.as_str(),
        // They are no command, and no file is opened.
        _ => "",
    };
    let Ok(store) = FileStore::new(rt.alloc(), rt, name) else {
        return Status::OutOfMemory;
    };
    let mut out = StdSink::output(rt.stdout());
    run_stamp(rt.alloc(), words, store, MonoClock::new(rt), &mut out).status
}

fn main(rt: HostRuntime) -> ExitCode {
    let words = match words(&rt) {
        Ok(words) => words,
        Err(error) if error.kind() == ErrorKind::OutOfMemory => {
            return ExitCode::from(Status::OutOfMemory.code());
        }
        // Words that are not UTF-8 are no command.
        Err(_) => Vec::new(rt.alloc()),
    };
    let status = match words.first() {
        Some(word) if word.as_str() == "stamp" => stamp(&rt, &words),
        // A node runs over UDP on 127.0.0.1, at the readings of the monotonic clock. Its trace goes to the
        // standard output, and what is said of it to the standard error.
        Some(word) if word.as_str() == "node" => {
            let mut files = OsFiles::new(&rt);
            let clock = MonoClock::new(&rt);
            let view_clock = clock.twin();
            let mut ports = UdpPorts::new(&rt);
            let mut trace = StdSink::output(rt.stdout());
            let mut say = StdSink::error(rt.stderr());
            let mut crew = ThreadCrew::new(rt.alloc());
            let gate = PlainGate::new(&rt);
            let end = run_node(
                &rt,
                rt.alloc(),
                &words,
                &mut files,
                clock,
                view_clock,
                &mut ports,
                &mut trace,
                &mut say,
                &mut crew,
                &gate,
            );
            end.status
        }
        // A command runs over the real files, the standard output and a gate that holds nobody.
        _ => {
            let mut files = OsFiles::new(&rt);
            let mut out = StdSink::output(rt.stdout());
            let gate = PlainGate::new(&rt);
            run_tool(&rt, rt.alloc(), &words, &mut files, &mut out, &gate)
        }
    };
    ExitCode::from(status.code())
}
