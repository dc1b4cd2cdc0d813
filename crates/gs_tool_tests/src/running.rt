use gs_cli::Status;
use gs_io::{MemFiles, MemSink, PlainGate};
use gs_tool::run_tool;
use std::alloc::{AllocError, Global};
use std::thread::Threads;
use std::time::Clock;

const USAGE: &str = "usage: gradsync plan, play, trace, audit, replay, gen or node\n";

const LINE: &str = "version = 1
cluster = 7
topology = \"line\"
nodes = 33
lo = 10000
hi = 10001
mu = 2000
tick = 100
delay_min = 2
delay_max = 12
every = 1
losses = 3
age = 412
";

const LINE_TEXT: &str = "nodes 33 edges 32 diameter 32
rate lo 10000 hi 10001 mu 2000 q 20 top 10022 sigma 20
tick 100 delay 2 12 age 412
kappa 122529 delta 61264 comp 70000
iota 2201 lambda 3226368 term 1
level 0 skew 3228669 neighbour 3228669
level 1 skew 161435 neighbour 406493
level 2 skew 8073 neighbour 498189
level 3 skew 405 neighbour 735579
level 4 skew 22 neighbour 980254
best 1 406493
";

/// What a run answered, and what it wrote.
type Ran = (Status, Vec<u8>);

/// The words of a line.
pub(crate) fn words_of(alloc: Global, line: &str) -> Result<Vec<String>, AllocError> {
    let mut words = Vec::new(alloc);
    for word in line.split_whitespace() {
        words.push(String::from_str(alloc, word)?)?;
    }
    Ok(words)
}

/// Files of these names that hold these bytes, with reads of these numbers failing.
pub(crate) fn files_of(
    alloc: Global,
    files: &[(&str, &[u8])],
    reads: &[u64],
) -> Result<MemFiles, AllocError> {
    let mut held = Vec::new(alloc);
    for (name, bytes) in files {
        held.push((String::from_str(alloc, name)?, bytes.to_vec(alloc)?))?;
    }
    Ok(MemFiles::new(alloc, held, reads.to_vec(alloc)?))
}

/// Runs the words of a line over these files, with reads and writes of these numbers failing.
pub(crate) fn run_with(
    rt: &(impl AllocGlobal + Clock + Threads + Sync),
    line: &str,
    files: &[(&str, &[u8])],
    reads: &[u64],
    writes: &[u64],
) -> Result<Ran, AllocError> {
    let alloc = rt.alloc();
    let words = words_of(alloc, line)?;
    let mut files = files_of(alloc, files, reads)?;
    let mut out = MemSink::new(alloc, writes.to_vec(alloc)?);
    let status = run_tool(rt, alloc, &words, &mut files, &mut out, &PlainGate::new(rt));
    Ok((status, out.bytes().to_vec(alloc)?))
}

/// Whether the words of a line over these files have this answer, with reads of these numbers failing.
pub(crate) fn gives_with(
    rt: &(impl AllocGlobal + Clock + Threads + Sync),
    line: &str,
    files: &[(&str, &[u8])],
    reads: &[u64],
    status: Status,
    text: &str,
) -> bool {
    match run_with(rt, line, files, reads, &[]) {
        Ok((answered, written)) => answered == status && written.as_slice() == text.as_bytes(),
        Err(_) => false,
    }
}

/// Whether they have it where all reads go well.
pub(crate) fn gives(
    rt: &(impl AllocGlobal + Clock + Threads + Sync),
    line: &str,
    files: &[(&str, &[u8])],
    status: Status,
    text: &str,
) -> bool {
    gives_with(rt, line, files, &[], status, text)
}

/// What they write where their job is done.
pub(crate) fn done(
    rt: &(impl AllocGlobal + Clock + Threads + Sync),
    line: &str,
    files: &[(&str, &[u8])],
) -> Option<Vec<u8>> {
    match run_with(rt, line, files, &[], &[]) {
        Ok((Status::Done, written)) => Some(written),
        _ => None,
    }
}

/// Lines whose words are no command.
const NO_COMMANDS: &str = "
dance
plan
plan base:2 x
play base:2 steady:10
play base:2 steady:10 0
play base:2 steady:10 65
play base:2 steady:10 01
node base:1 0 3
stamp x
replay base:2 4294967296 t
gen 1 2 run
gen 1 3 dance
gen 18446744073709551616 3 plan
settle base:2 steady:9 2305843009213693953
slots base:2 steady:9 4294967296 1
order base:2 steady:9 0
order base:2 steady:9 1048577
";

#[test]
fn words_that_are_no_command_have_the_usage(rt: HostRuntime) {
    for line in NO_COMMANDS.lines() {
        assert!(rt; gives(&rt, line, &[], Status::Usage, USAGE), "{line}");
    }
    assert_eq!(rt; Status::Usage.code(), 1);
}

/// Whether the words of a case have this status and the line that stands behind its arrow.
pub(crate) fn holds(
    rt: &(impl AllocGlobal + Clock + Threads + Sync),
    files: &[(&str, &[u8])],
    status: Status,
    case: &str,
) -> bool {
    let Some((line, answer)) = case.split_once(" -> ") else {
        return false;
    };
    match format!(in rt.alloc(); "{answer}\n") {
        Ok(text) => gives(rt, line, files, status, text.as_str()),
        Err(_) => false,
    }
}

/// Plans that are refused, and why.
const REFUSED: &str = "plan bytes -> plan refused: toml
plan empty -> plan refused: missing version
plan three -> plan refused: range version
plan kind -> plan refused: kind cluster
plan base:x -> plan refused: number
plan base: -> plan refused: number
plan base:4294967296 -> plan refused: number
plan base:0 -> plan refused: count
plan base:513 -> plan refused: count
migrate base:513 -> plan refused: count
";

#[test]
fn a_plan_gives_its_bounds_or_what_is_wrong(rt: HostRuntime) {
    let files = [
        ("line", LINE.as_bytes()),
        ("bytes", b"version = ".as_slice()),
        ("empty", b"".as_slice()),
        ("three", b"version = 3\n".as_slice()),
        ("kind", b"version = 1\ncluster = true\n".as_slice()),
    ];
    assert!(rt; gives(&rt, "plan line", &files, Status::Done, LINE_TEXT));
    assert!(rt; gives(&rt, "plan base:33", &files, Status::Done, LINE_TEXT));
    for case in REFUSED.lines() {
        assert!(rt; holds(&rt, &files, Status::PlanRefused, case), "{case}");
    }
    let missing = "read failed: missing\n";
    assert!(rt; gives(&rt, "plan missing", &files, Status::ReadFault, missing));
    assert!(rt; gives(&rt, "migrate missing", &files, Status::ReadFault, missing));
}

/// Whether the plan file of so many brackets has this answer.
fn brackets_give(
    rt: &(impl AllocGlobal + Clock + Threads + Sync),
    count: usize,
    status: Status,
    text: &str,
) -> bool {
    match vec![in rt.alloc(); b'['; count] {
        Ok(bytes) => gives(rt, "plan p", &[("p", bytes.as_slice())], status, text),
        Err(_) => false,
    }
}

#[test]
fn a_plan_file_has_a_mebibyte_at_most(rt: HostRuntime) {
    assert!(rt; brackets_give(&rt, 1_048_576, Status::PlanRefused, "plan refused: toml\n"));
    assert!(rt; brackets_give(&rt, 1_048_577, Status::TooLong, "too long: p\n"));
}

const SPANS: &str = "version = 2
cluster = 7
topology = \"line\"
nodes = 3
lo = 10000
hi = 10001
mu = 2000
tick = 100
delay_min = 2
delay_max = 12
every = 1
losses = 3
age = 412
";

const SPANS_TEXT: &str = "nodes 3 edges 2 diameter 2
rate lo 10000 hi 10001 mu 2000 q 20 top 10022 sigma 20
tick 100 delay 2 12 age 412
kappa 122529 delta 61264 comp 70000
iota 2201 lambda 201648 term 1
level 0 skew 203949 neighbour 203949
level 1 skew 10199 neighbour 255257
level 2 skew 511 neighbour 490627
level 3 skew 27 neighbour 735201
level 4 skew 3 neighbour 980235
best 0 203949
edge 0 1 delay 2 12 kappa 122529 best 0 203949
edge 1 2 delay 2 2 kappa 22529 best 1 55257
";

/// Whether the plan with these spans has this answer.
fn spans_give(
    rt: &(impl AllocGlobal + Clock + Threads + Sync),
    spans: &str,
    status: Status,
    text: &str,
) -> bool {
    match format!(in rt.alloc(); "{SPANS}spans = {spans}\n") {
        Ok(plan) => gives(rt, "plan p", &[("p", plan.as_bytes())], status, text),
        Err(_) => false,
    }
}

#[test]
fn a_span_gives_its_edge_numbers_of_its_own(rt: HostRuntime) {
    let refused = Status::PlanRefused;
    assert!(rt; spans_give(&rt, "[[1, 2, 2, 2]]", Status::Done, SPANS_TEXT));
    assert!(rt;
        spans_give(
            &rt,
            "[[1, 2, 2, 2, 22528]]",
            refused,
            "plan refused: kappa\n"
        )
    );
    assert!(rt; spans_give(&rt, "[[0, 2, 2, 2]]", refused, "plan refused: span 0\n"));
    assert!(rt; spans_give(&rt, "[[1, 2, 2]]", refused, "plan refused: kind spans\n"));
}

/// How many lines end in these bytes.
fn lines_in(bytes: &[u8]) -> usize {
    bytes.iter().filter(|byte| **byte == b'\n').count()
}

#[test]
fn a_migrated_plan_has_its_bounds_and_a_line_an_edge(rt: HostRuntime) {
    let Some(migrated) = done(&rt, "migrate line", &[("line", LINE.as_bytes())]) else {
        panic!(rt; "the plan is not migrated");
    };
    let Some(text) = done(&rt, "plan two", &[("two", migrated.as_slice())]) else {
        panic!(rt; "the migrated plan is refused");
    };
    assert!(rt; text.starts_with(LINE_TEXT.as_bytes()));
    assert!(rt; text.ends_with(b"edge 31 32 delay 2 12 kappa 122529 best 1 406493\n"));
    assert_eq!(rt; lines_in(&text), 11 + 32);
}

/// Whether a run whose write of this number fails has this status, and wrote so many lines.
fn writes(
    rt: &(impl AllocGlobal + Clock + Threads + Sync),
    line: &str,
    fails: u64,
    status: Status,
    lines: usize,
) -> bool {
    match run_with(rt, line, &[], &[], &[fails]) {
        Ok((answered, written)) => answered == status && lines_in(&written) == lines,
        Err(_) => false,
    }
}

/// Of a text the sink has the lines before the write that fails; a file is one write.
#[test]
fn a_text_is_one_line_a_write_and_a_file_one_write(rt: HostRuntime) {
    assert!(rt; writes(&rt, "plan base:33", 1, Status::WriteFault, 0));
    assert!(rt; writes(&rt, "plan base:33", 2, Status::WriteFault, 1));
    assert!(rt; writes(&rt, "plan base:33", 11, Status::WriteFault, 10));
    assert!(rt; writes(&rt, "plan base:33", 12, Status::Done, 11));
    assert!(rt; writes(&rt, "dance", 1, Status::WriteFault, 0));
    assert!(rt; writes(&rt, "dance", 2, Status::Usage, 1));
    assert!(rt; writes(&rt, "migrate base:33", 1, Status::WriteFault, 0));
    assert!(rt; writes(&rt, "migrate base:33", 2, Status::Done, 15));
}
