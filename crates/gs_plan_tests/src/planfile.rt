ghost use Rattle.gs_planfile.specs.Texts.{IsText};

use gs_planfile::PlanFileFault::{self, Extra, Kind, Missing, OutOfMemory, Range, Toml, Utf8};
use gs_planfile::{EdgeList, EdgeSpan, Key, PlanText, Shape, Spans, base, migrate, read_plan};
use std::alloc::{AllocError, Global};

const LINE: &str = "version = 1
cluster = 7
topology = \"line\"
nodes = 33
lo = 10000
hi = 10001
mu = 2000
tick = 100
delay_min = 2
delay_max = 12
every = 1
losses = 3
age = 412
";

/// `LINE` with another text at one place. A bar stands for the end of a line.
fn edited(alloc: Global, old: &str, new: &str) -> Option<String> {
    let old = old.replace(alloc, "|", "\n").ok()?;
    let new = new.replace(alloc, "|", "\n").ok()?;
    let (before, after) = LINE.split_once(old.as_str())?;
    format!(in alloc; "{before}{new}{after}").ok()
}

const NUMBERS: &str =
    ", lo: 10000, hi: 10001, mu: 2000, tick: 100, delay_min: 2, delay_max: 12, every: 1, losses: 3, age: 412, ";

/// Whether this is all that a plan says: the version, the shape, and what follows the numbers of `LINE`.
fn is_shown(alloc: Global, text: &PlanText, version: &str, said: &str) -> bool {
    let Some((shape, rest)) = said.split_once(" => ") else {
        return false;
    };
    let wanted = format!(in alloc;
        "PlanText {{ version: {version}, cluster: 7, shape: {shape}{NUMBERS}{rest} }}"
    );
    match (format!(in alloc; "{text:?}"), wanted) {
        (Ok(shown), Ok(wanted)) => shown.as_str() == wanted.as_str(),
        _ => false,
    }
}

/// Whether a plan says so once it was migrated and read again.
fn is_migrated(alloc: Global, text: &PlanText, said: &str) -> bool
    requires { IsText text.now }
{
    let Ok(newest) = migrate(alloc, text) else {
        return false;
    };
    match read_plan(alloc, newest.as_slice()) {
        Ok(text) => is_shown(alloc, &text, "Two", said),
        Err(_) => false,
    }
}

/// Whether a file says so, and once migrated the same as version 2.
fn file_says(alloc: Global, file: &[u8], said: &str) -> bool {
    let Some((version, said)) = said.split_once(" => ") else {
        return false;
    };
    match read_plan(alloc, file) {
        Ok(text) => is_shown(alloc, &text, version, said) && is_migrated(alloc, &text, said),
        Err(_) => false,
    }
}

/// Edits of `LINE` that are plans, with what they say: the version, the shape, and what follows the
/// numbers.
const SAID: &str =
    " =>  => One => Line(33) => kappa: None, levels: 4, port: 40000, spans: Spans { items: [] }
 => \u{feff} => One => Line(33) => kappa: None, levels: 4, port: 40000, spans: Spans { items: [] }
\"line\" => \"ring\" => One => Ring(33) => kappa: None, levels: 4, port: 40000, spans: Spans { items: [] }
\"line\"|nodes = 33 => \"grid\"|cols = 3|rows = 2 => One => Grid(2, 3) => kappa: None, levels: 4, port: 40000, spans: Spans { items: [] }
\"line\" => \"edges\"|edges = [[0, 1], [4294967295, 2]] => One => Edges(33, EdgeList { items: [(0, 1), (4294967295, 2)] }) => kappa: None, levels: 4, port: 40000, spans: Spans { items: [] }
\"line\" => \"edges\"|edges = [] => One => Edges(33, EdgeList { items: [] }) => kappa: None, levels: 4, port: 40000, spans: Spans { items: [] }
age => kappa = 4611686018427387903|levels = 0|port = 0|age => One => Line(33) => kappa: Some(4611686018427387903), levels: 0, port: 0, spans: Spans { items: [] }
version = 1 => version = 2 => Two => Line(33) => kappa: None, levels: 4, port: 40000, spans: Spans { items: [] }
version = 1 => version = 2|spans = [[1, 2, 2, 2], [3, 4, 5, 6, 4611686018427387903]] => Two => Line(33) => kappa: None, levels: 4, port: 40000, spans: Spans { items: [EdgeSpan { a: 1, b: 2, delay_min: 2, delay_max: 2, kappa: None }, EdgeSpan { a: 3, b: 4, delay_min: 5, delay_max: 6, kappa: Some(4611686018427387903) }] }
";

/// Whether one case of `SAID` holds.
fn says(alloc: Global, case: &str) -> bool {
    let Some((old, after)) = case.split_once(" => ") else {
        return false;
    };
    let Some((new, said)) = after.split_once(" => ") else {
        return false;
    };
    match edited(alloc, old, new) {
        Some(file) => file_says(alloc, file.as_bytes(), said),
        None => false,
    }
}

#[test]
fn a_plan_file_says_its_text_and_migrates_to_it(rt: HostRuntime) {
    for case in SAID.lines() {
        assert!(rt; says(rt.alloc(), case), "{case}");
    }
}

/// A plan of two edges, and of one span with all its numbers.
fn listed(alloc: Global) -> Result<PlanText, AllocError> {
    let edges = Vec::from_array(alloc, [(0, 1), (1, 2)])?;
    let span = EdgeSpan {
        a: 1,
        b: 2,
        delay_min: 3,
        delay_max: 4,
        kappa: Some(5),
    };
    let spans = Vec::from_array(alloc, [span])?;
    let mut text = base(alloc, 3);
    text.shape = Shape::Edges(3, EdgeList::from_vec(edges));
    text.spans = Spans::from_vec(spans);
    Ok(text)
}

/// Whether two plans say the same.
fn say_the_same(alloc: Global, one: &PlanText, other: &PlanText) -> bool {
    match (format!(in alloc; "{one:?}"), format!(in alloc; "{other:?}")) {
        (Ok(one), Ok(other)) => one.as_str() == other.as_str(),
        _ => false,
    }
}

#[test]
fn a_copy_says_the_same(rt: HostRuntime) {
    let alloc = rt.alloc();
    let Ok(text) = listed(alloc) else {
        panic!(rt; "out of memory");
    };
    match text.copy(alloc) {
        Ok(copy) => assert!(rt; say_the_same(alloc, &copy, &text)),
        Err(_) => panic!(rt; "out of memory"),
    }
}

/// The built-in line of 33 is `LINE`, and `NEWEST` is how version 2 writes it.
#[test]
fn writes_the_built_in_line(rt: HostRuntime) {
    let alloc = rt.alloc();
    let built_in = base(alloc, 33);
    match read_plan(alloc, LINE.as_bytes()) {
        Ok(text) => assert!(rt; say_the_same(alloc, &text, &built_in)),
        Err(_) => panic!(rt; "the plan is refused"),
    }
    match migrate(alloc, &built_in) {
        Ok(newest) => assert!(rt; newest.as_slice() == NEWEST.as_bytes()),
        Err(_) => panic!(rt; "out of memory"),
    }
}

const NEWEST: &str = "age = 412
cluster = 7
delay_max = 12
delay_min = 2
every = 1
hi = 10001
levels = 4
lo = 10000
losses = 3
mu = 2000
nodes = 33
port = 40000
tick = 100
topology = \"line\"
version = 2
";

/// Edits of `LINE` that are refused, with the fault: values of version and cluster that are no number
/// of the key, what TOML refuses, the first key at fault whatever its fault, the shapes, the last keys,
/// and no key at fault but one too many.
const REFUSED: &str = "version = 1| =>  => missing version
version = 1 => version = 0 => range version
version = 1 => version = 3 => range version
version = 1 => version = -1 => range version
version = 1 => version = 1.0 => kind version
= 7 => = 7.5 => kind cluster
= 7 => = 2026-11-30 => kind cluster
= 7 => = \"7\" => kind cluster
= 7 => = [7] => kind cluster
= 7 => = true => kind cluster
cluster = 7 => cluster.x = 7 => kind cluster
= 7 => = -1 => range cluster
= 7 => = 4294967296 => range cluster
= 7 => = 9223372036854775808 => toml
cluster = 7 => cluster = 7|cluster = 7 => toml
cluster = 7 => cluster 7 => toml
cluster = 7 => cluster = 7\rlo = 1 => toml
cluster = 7|topology = \"line\"| => cluster = -1| => range cluster
cluster = 7|topology = \"line\"| => topology = 1| => missing cluster
nodes = 33|lo = 10000| => lo = 1.5| => missing nodes
every = 1|losses = 3| => every = 1.5|losses = -1| => kind every
age = 412| => kappa = -1| => missing age
\"line\" => 1 => kind topology
\"line\" => \"star\" => range topology
\"line\" => \"Line\" => range topology
\"line\" => \"grid\" => missing rows
\"line\" => \"grid\"|rows = 2 => missing cols
\"line\" => \"edges\" => missing edges
\"line\" => \"edges\"|edges = [[0, -1], [1]] => kind edges
\"line\" => \"edges\"|edges = [[0, 1, 2]] => kind edges
\"line\" => \"edges\"|edges = [[0, 1], [1, 4294967296]] => range edges
age => kappa = 4611686018427387904|age => range kappa
age => levels = -1|port = \"\"|age => range levels
version = 1 => version = 2|spans = [[1, 2, -2, 2], [1, 2, 2]] => kind spans
version = 1 => version = 2|spans = [[1, 2, 2, 2, 5, 6]] => kind spans
version = 1 => version = 2|spans = [[1, 2, 2, 2, 1.5]] => kind spans
version = 1 => version = 2|spans = [[1, 2, 2, 4294967296]] => range spans
version = 1 => version = 2|spans = [[1, 2, 2, 2, 4611686018427387904]] => range spans
version = 1 => version = 1|spans = 7 => extra
\"line\" => \"line\"|rows = \"any\" => extra
\"line\" => \"ring\"|edges = [[0, 1]] => extra
age = 412 => age = 412|ages = 412 => extra
";

/// Whether a fault is told in these words.
fn has_words(alloc: Global, fault: PlanFileFault, words: &str) -> bool {
    match fault.to_string(alloc) {
        Ok(told) => told.as_str() == words,
        Err(_) => false,
    }
}

/// Whether a plan file is refused in these words.
fn is_refused(alloc: Global, file: &[u8], words: &str) -> bool {
    match read_plan(alloc, file) {
        Ok(_) => false,
        Err(fault) => has_words(alloc, fault, words),
    }
}

/// Whether one case of `REFUSED` holds.
fn refuses(alloc: Global, case: &str) -> bool {
    let Some((old, after)) = case.split_once(" => ") else {
        return false;
    };
    let Some((new, fault)) = after.split_once(" => ") else {
        return false;
    };
    match edited(alloc, old, new) {
        Some(file) => is_refused(alloc, file.as_bytes(), fault),
        None => false,
    }
}

#[test]
fn refuses_at_the_first_fault(rt: HostRuntime) {
    for case in REFUSED.lines() {
        assert!(rt; refuses(rt.alloc(), case), "{case}");
    }
    assert!(rt; is_refused(rt.alloc(), b"", "missing version"));
}

#[test]
fn each_fault_has_its_words(rt: HostRuntime) {
    let alloc = rt.alloc();
    assert!(rt; has_words(alloc, Utf8, "utf8"));
    assert!(rt; has_words(alloc, Toml, "toml"));
    assert!(rt; has_words(alloc, Missing(Key::DelayMin), "missing delay_min"));
    assert!(rt; has_words(alloc, Kind(Key::Spans), "kind spans"));
    assert!(rt; has_words(alloc, Range(Key::Version), "range version"));
    assert!(rt; has_words(alloc, Extra, "extra"));
    assert!(rt; has_words(alloc, OutOfMemory, "out of memory"));
}

/// `LINE` with a value of so many brackets.
fn deep(alloc: Global, depth: usize) -> Result<String, AllocError> {
    let open = "[".repeat(alloc, depth)?;
    let close = "]".repeat(alloc, depth)?;
    format!(in alloc; "{LINE}deep = {open}{close}\n")
}

/// Whether such a file is refused in these words.
fn is_refused_deep(alloc: Global, depth: usize, words: &str) -> bool {
    match deep(alloc, depth) {
        Ok(file) => is_refused(alloc, file.as_bytes(), words),
        Err(_) => false,
    }
}

/// A text of a depth that TOML's reader takes is a plan with one key too many; one deeper, and a
/// mebibyte of brackets, is no document.
#[test]
fn refuses_depth_and_bytes(rt: HostRuntime) {
    let alloc = rt.alloc();
    assert!(rt; is_refused_deep(alloc, 80, "extra"));
    assert!(rt; is_refused_deep(alloc, 81, "toml"));
    match "[".repeat(alloc, 1_048_576) {
        Ok(brackets) => assert!(rt; is_refused(alloc, brackets.as_bytes(), "toml")),
        Err(_) => panic!(rt; "out of memory"),
    }
    assert!(rt; is_refused(alloc, &[0xff], "utf8"));
}
