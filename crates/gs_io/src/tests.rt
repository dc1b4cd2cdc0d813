ghost use Rattle.std.specs.Prelude.{Some};
ghost use Rattle.std.specs.Io.{WritesAtMost};
ghost use Rattle.std.specs.Io.KnownBytes.{WriteAppends};

use super::*;
use crate::file_set::read_opened;
use std::alloc::{AllocError, Global};
use std::io::{self, ErrorKind, Read, Write};
use std::{env, fs, process};

#[test]
fn a_failed_write_keeps_nothing_of_its_piece(rt: HostRuntime) -> Result<(), AllocError> {
    let alloc = rt.alloc();
    let mut sink = MemSink::new(alloc, vec![in alloc; 2]?);
    assert!(rt; sink.write(b"one") == Ok(()));
    assert!(rt; sink.write(b"two") == Err(Failed));
    assert!(rt; sink.write(b"three") == Ok(()));
    assert_eq!(rt; sink.bytes(), b"onethree".as_slice());
    Ok(())
}

#[test]
fn lines_up_to_the_failed_write(rt: HostRuntime) -> Result<(), AllocError> {
    let alloc = rt.alloc();
    let text = b"a 1\n\nb 2\nlast".as_slice();
    let mut whole = MemSink::new(alloc, Vec::new(alloc));
    assert!(rt; write_lines(&mut whole, text) == Ok(()));
    assert_eq!(rt; whole.bytes(), text);
    let mut third_fails = MemSink::new(alloc, vec![in alloc; 3]?);
    assert!(rt; write_lines(&mut third_fails, text) == Err(Failed));
    assert_eq!(rt; third_fails.bytes(), b"a 1\n\n".as_slice());
    let mut fourth_fails = MemSink::new(alloc, vec![in alloc; 4]?);
    assert!(rt; write_lines(&mut fourth_fails, text) == Err(Failed));
    assert_eq!(rt; fourth_fails.bytes(), b"a 1\n\nb 2\n".as_slice());
    Ok(())
}

/// What a writer does, a byte for each call: a digit takes so many bytes at most, `i` is an
/// interruption, and any other byte a fault. After them it takes all.
#[derive(Drop)]
struct Turns<'a> {
    left: &'a [u8],
}

impl Turns<'_> {
    fn next_turn(&mut self) -> Result<usize, ErrorKind> {
        let Some((turn, after)) = self.left.split_first() else {
            return Ok(usize::MAX);
        };
        self.left = after;
        match *turn {
            b'0'..=b'9' => Ok((*turn - b'0') as usize),
            b'i' => Err(ErrorKind::Interrupted),
            _ => Err(ErrorKind::BrokenPipe),
        }
    }
}

#[derive(Drop)]
struct Writer<'a> {
    held: Vec<u8>,
    turns: Turns<'a>,
    flushes: bool,
}

impl Write for Writer<'_> {
    ghost contents = { λ writer. Some writer.held.items };

    fn write(&mut self, buf: &[u8]) -> io::Result<usize> {
        match self.turns.next_turn() {
            Ok(most) => put(&mut self.held, buf, most),
            Err(kind) => Err(io::Error::from(kind)),
        }
    }

    fn flush(&mut self) -> io::Result<()> {
        if self.flushes {
            Ok(())
        } else {
            Err(io::Error::from(ErrorKind::BrokenPipe))
        }
    }
}

/// Adds the bytes, at most so many, and tells how many.
fn put(held: &mut Vec<u8>, bytes: &[u8], most: usize) -> io::Result<usize>
    ensures bound { WritesAtMost result bytes.now }
    ensures bytes { WriteAppends (Some held.old.items) (Some held.new.items) result bytes.now }
{
    let taken = bytes.len().min(most);
    match held.extend_from_slice(&bytes[..taken]) {
        Ok(()) => Ok(taken),
        Err(AllocError) => Err(io::Error::from(ErrorKind::OutOfMemory)),
    }
}

#[test]
fn a_stream_has_a_front_of_its_piece(rt: HostRuntime) -> Result<(), AllocError> {
    let alloc = rt.alloc();
    for (turns, flushes, want, held) in [
        ("", true, Ok(()), "piece"),
        ("21i1", true, Ok(()), "piece"),
        ("iii", true, Ok(()), "piece"),
        ("2x", true, Err(Failed), "pi"),
        ("30", true, Err(Failed), "pie"),
        ("4", false, Err(Failed), "piece"),
    ] {
        let mut writer = Writer {
            held: Vec::new(alloc),
            turns: Turns {
                left: turns.as_bytes(),
            },
            flushes,
        };
        let mut sink = StdSink::new(&mut writer);
        assert!(rt; sink.write(b"piece") == want);
        assert!(rt; writer.held.as_slice() == held.as_bytes());
    }
    Ok(())
}

#[test]
fn standard_streams_take_a_line(rt: HostRuntime) {
    let mut out = StdSink::output(rt.stdout());
    assert!(rt; out.write(b"a line on the standard output\n") == Ok(()));
    let mut err = StdSink::error(rt.stderr());
    assert!(rt; err.write(b"a line on the standard error\n") == Ok(()));
}

fn two_files(alloc: Global) -> Result<Vec<(String, Vec<u8>)>, AllocError> {
    let mut files = Vec::new(alloc);
    for (name, bytes) in [
        ("plan", b"first".as_slice()),
        ("plan", b"second".as_slice()),
        ("empty", b"".as_slice()),
    ] {
        files.push((
            String::from_str(alloc, name)?,
            Vec::from_slice(alloc, bytes)?,
        ))?;
    }
    Ok(files)
}

fn gave(got: Result<Vec<u8>, FileStop>, want: Result<&[u8], FileStop>) -> bool {
    match (got, want) {
        (Ok(bytes), Ok(wanted)) => bytes.as_slice() == wanted,
        (Err(stop), Err(wanted)) => stop == wanted,
        _ => false,
    }
}

#[test]
fn a_read_in_memory_gives_its_file_or_fails(rt: HostRuntime) -> Result<(), AllocError> {
    let alloc = rt.alloc();
    let mut files = MemFiles::new(alloc, two_files(alloc)?, vec![in alloc; 6]?);
    let reads = [
        ("plan", 100, Ok(b"first".as_slice())),
        ("plan", 5, Ok(b"first".as_slice())),
        ("plan", 4, Err(FileStop::TooLong)),
        ("empty", 0, Ok(b"".as_slice())),
        ("script", 100, Err(FileStop::Failed)),
        ("plan", 4, Err(FileStop::Failed)),
        ("plan", 100, Ok(b"first".as_slice())),
    ];
    for (name, most, want) in reads {
        assert!(rt; gave(files.read(alloc, name, most), want));
    }
    Ok(())
}

/// A reader that has a fault at its first call, and then ends.
#[derive(Drop)]
struct Faulty {
    fault: Option<ErrorKind>,
}

impl Read for Faulty {
    fn read(&mut self, _buf: &mut [u8]) -> io::Result<usize> {
        match self.fault.take() {
            Some(kind) => Err(io::Error::from(kind)),
            None => Ok(0),
        }
    }
}

#[test]
fn a_reader_may_give_its_bytes_in_parts(rt: HostRuntime) {
    let alloc = rt.alloc();
    for (kind, most, want) in [
        (ErrorKind::Interrupted, 7, Ok(b"seven b".as_slice())),
        (ErrorKind::Interrupted, 6, Err(FileStop::TooLong)),
        (ErrorKind::BrokenPipe, 2, Err(FileStop::TooLong)),
        (ErrorKind::BrokenPipe, 7, Err(FileStop::Failed)),
        (ErrorKind::OutOfMemory, 7, Err(FileStop::OutOfMemory)),
    ] {
        let faulty = Faulty { fault: Some(kind) };
        let reader = b"sev".as_slice().chain(faulty).chain(b"en b".as_slice());
        assert!(rt; gave(read_opened(alloc, Ok(reader), most), want));
    }
    let missing = io::Result::<Faulty>::Err(io::Error::from(ErrorKind::NotFound));
    assert!(rt; gave(read_opened(alloc, missing, 7), Err(FileStop::Failed)));
}

#[test]
fn a_read_of_the_machine_gives_its_file_or_fails(rt: HostRuntime) -> Result<(), AllocError> {
    let alloc = rt.alloc();
    let temp = env::temp_dir(&rt).expect(&rt, "a folder for temporary files");
    let folder = format!(in alloc; "{}/gs_io_{}", temp.display(), process::id(rt.process()))?;
    let name = format!(in alloc; "{}/plan", folder)?;
    fs::create_dir(&rt, folder.as_str()).expect(&rt, "the folder is made");
    fs::write(&rt, name.as_str(), b"seven b").expect(&rt, "the file is written");
    let mut files = OsFiles::new(&rt);
    let whole = files.read(alloc, name.as_str(), 7);
    let cut = files.read(alloc, name.as_str(), 6);
    let no_file = files.read(alloc, folder.as_str(), 7);
    fs::remove_dir_all(&rt, folder.as_str()).expect(&rt, "the folder is removed");
    let missing = files.read(alloc, name.as_str(), 7);
    assert!(rt; gave(whole, Ok(b"seven b".as_slice())));
    assert!(rt; gave(cut, Err(FileStop::TooLong)));
    assert!(rt; gave(no_file, Err(FileStop::Failed)));
    assert!(rt; gave(missing, Err(FileStop::Failed)));
    Ok(())
}
