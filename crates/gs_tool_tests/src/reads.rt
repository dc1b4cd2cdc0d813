use crate::running::{files_of, words_of};
use gs_io::{FileStop, Files, MemSink, PlainGate};
use gs_tool::run_tool;
use std::alloc::AllocError;
use std::thread::Threads;
use std::time::Clock;

const FILES: [(&str, &[u8]); 2] = [("bad.toml", b"version = 3"), ("s.csv", b"quanta,9\n")];

/// Whether the words of a line read so many files, no more and no fewer: of the reads of one run the one behind
/// these is to fail, and so it is the test's own.
fn reads(
    rt: &(impl AllocGlobal + Clock + Threads + Sync),
    line: &str,
    count: u64,
) -> Result<bool, AllocError> {
    let alloc = rt.alloc();
    let words = words_of(alloc, line)?;
    let mut files = files_of(alloc, &FILES, &[count.saturating_add(1)])?;
    let mut out = MemSink::new(alloc, Vec::new(alloc));
    let _status = run_tool(rt, alloc, &words, &mut files, &mut out, &PlainGate::new(rt));
    match files.read(alloc, "s.csv", 100) {
        Err(FileStop::Failed) => Ok(true),
        _ => Ok(false),
    }
}

/// Lines, and how many files each reads.
const CASES: &str = "0 dance
0 plan base:2
0 gen 1 3 run
0 play base:2 steady:9 1
1 plan bad.toml
1 plan missing
1 migrate missing
1 play base:2 s.csv 1
1 play bad.toml steady:9 1
1 play missing s.csv 1
2 play bad.toml s.csv 1
2 play bad.toml missing 1
2 trace bad.toml s.csv
1 order base:2 s.csv 3
1 settle base:2 s.csv 0
1 slots base:2 s.csv 1 1000000
1 audit missing s.csv
2 audit bad.toml s.csv
1 replay base:2 0 s.csv
";

/// Each file that the words name is read once, and none behind one that could not be read.
#[test]
fn each_file_is_read_once(rt: HostRuntime) {
    for case in CASES.lines() {
        let Some((count, line)) = case.split_once(' ') else {
            panic!(rt; "no case");
        };
        let count = count.parse::<u64>().unwrap_or(9);
        assert!(rt; reads(&rt, line, count).unwrap_or(false), "{case}");
    }
}
