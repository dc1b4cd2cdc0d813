ghost use Rattle.std.specs.Prelude.{◌≡◌, ◌==◌, ℕ, ◌<◌, ◌≤◌, List, [], ◌++◌, length, take, IsTrue};
ghost use Rattle.std.specs.Prelude.{Option, Some, None, IfSome, IfOk, IsErr, OnOk, OnErr};
ghost use Rattle.std.specs.Io.BufRead.{take_through};
ghost use Rattle.std.specs.List.{position};
ghost use Rattle.gs_io.specs.Causes.{HasCause, counted, is_to_fail};
ghost use Rattle.gs_io.specs.Held.{Appends, AppendsFront, Written, after_failed_write, after_write};
ghost use Rattle.gs_io.specs.Adapters.{times_failed, told_by};

use crate::Failed;
use std::alloc::Global;
use std::io::{ErrorKind, Stderr, Stdout, Write};
use std::marker::Model;

/// Where bytes go.
pub trait Sink {
    /// The bytes that it holds, where it tells them.
    ghost bytes: { Self → Option (List ℕ) };

    /// How often it has failed.
    ghost faults: { Self → ℕ };

    /// Appends the piece. After `Failed` the sink holds what it held and a prefix of the piece.
    fn write(&mut self, piece: &[u8]) -> Result<(), Failed>
        ensures ok { OnOk result (Appends (bytes self.old) (bytes self.new) piece.now) }
        ensures err { OnErr result (AppendsFront (bytes self.old) (bytes self.new) piece.now) }
        ensures cause { HasCause (faults self.old) (faults self.new) result };
}

/// Writes a text with one write a line. Each piece ends with its line feed; a last piece without
/// one is written too.
pub fn write_lines<K: Sink>(out: &mut K, text: &[u8]) -> Result<(), Failed>
    ensures ok { OnOk result (Appends (K.bytes out.old) (K.bytes out.new) text.now) }
    ensures err { OnErr result (AppendsFront (K.bytes out.old) (K.bytes out.new) text.now) }
    ensures cause { HasCause (K.faults out.old) (K.faults out.new) result }
{
    let mut rest = text;
    while !rest.is_empty() {
        let (line, after) = split_line(rest);
        out.write(line)?;
        rest = after;
    }
    Ok(())
}

/// The first line with its line feed, and what comes after it.
fn split_line(text: &[u8]) -> (&[u8], &[u8])
    requires { 0 < length text.now }
    ensures whole { text.now ≡ result.0.now ++ result.1.now }
    ensures line { result.0.now ≡ take_through 10 text.now }
    ensures some { 0 < length result.0.now }
{
    text.split_at(line_len(text))
}

/// How many bytes the first line has, with its line feed.
#[tactic(auto, using(crate::proofs::Lines::line_ends))]
fn line_len(text: &[u8]) -> usize
    requires { 0 < length text.now }
    ensures line { take result text.now ≡ take_through 10 text.now }
    ensures some { 0 < result }
    ensures at_most { result ≤ length text.now }
{
    match line_feed(text) {
        Some(feed) => feed + 1,
        None => text.len(),
    }
}

fn line_feed(text: &[u8]) -> Option<usize>
    ensures place { result ≡ position (λ c. c == 10) text.now }
    ensures inside { IfSome result (λ feed. feed < length text.now) }
{
    text.iter().position(|c| *c == b'\n')
}

/// A sink in memory. The calls whose numbers it was given, from 1, fail and keep nothing of their
/// piece. Running out of memory is a fault like any other.
#[derive(Drop)]
pub struct MemSink {
    held: Vec<u8>,
    fails: Vec<u64>,
    calls: u64,
    faults: u64,
}

impl Model for MemSink {
    ghost Value = { Written };

    ghost view = { λ sink. record {
      bytes = sink.held.items;
      fails = sink.fails.items;
      calls = sink.calls;
      faults = sink.faults;
    } };
}

impl MemSink {
    /// A sink that holds nothing. `fails` are the numbers of the writes that are to fail.
    pub fn new(alloc: Global, fails: Vec<u64>) -> Self
        ensures { result ≡ record { bytes = []; fails = fails.items; calls = 0; faults = 0 } }
    {
        MemSink {
            held: Vec::new(alloc),
            fails,
            calls: 0,
            faults: 0,
        }
    }

    /// What was written.
    pub fn bytes(&self) -> &[u8]
        ensures { result.now ≡ self.now.bytes }
    {
        &self.held
    }
}

impl Sink for MemSink {
    ghost bytes = { λ sink. Some sink.bytes };

    ghost faults = { λ sink. sink.faults };

    fn write(&mut self, piece: &[u8]) -> Result<(), Failed>
        ensures kept { OnOk result (self.new ≡ after_write self.old piece.now) }
        ensures failed { OnErr result (self.new ≡ after_failed_write self.old) }
        ensures named { IsTrue (is_to_fail self.old.fails (counted self.old.calls)) → IsErr result }
        ensures cause { HasCause self.old.faults self.new.faults result }
    {
        self.calls = self.calls.saturating_add(1);
        if self.fails.contains(&self.calls) || self.held.extend_from_slice(piece).is_err() {
            self.faults = self.faults.saturating_add(1);
            return Err(Failed);
        }
        Ok(())
    }
}

/// A stream of the process, or any other writer. It tells what the writer tells: the standard
/// streams tell nothing.
#[derive(Drop)]
pub struct StdSink<W> {
    stream: W,
    faults: u64,
}

impl<W: Write> StdSink<W> {
    /// A sink that writes to this writer.
    pub fn new(stream: W) -> Self
        ensures bytes { told_by W.contents result ≡ W.contents stream }
        ensures faults { times_failed result ≡ 0 }
    {
        StdSink { stream, faults: 0 }
    }
}

impl StdSink<Stdout> {
    /// The standard output of the process.
    pub fn output(stream: Stdout) -> Self
        ensures { ⟦<StdSink<Stdout> as Sink>⟧.faults result ≡ 0 }
    {
        StdSink { stream, faults: 0 }
    }
}

impl StdSink<Stderr> {
    /// The standard error of the process.
    pub fn error(stream: Stderr) -> Self
        ensures { ⟦<StdSink<Stderr> as Sink>⟧.faults result ≡ 0 }
    {
        StdSink { stream, faults: 0 }
    }
}

impl<W: Write> Sink for StdSink<W> {
    ghost bytes = { λ sink. W.contents sink.stream };

    ghost faults = { λ sink. sink.faults };

    /// The piece is out, and not only in a buffer, where this is Ok.
    fn write(&mut self, piece: &[u8]) -> Result<(), Failed>
        ensures ok { OnOk result
            (Appends (told_by W.contents self.old) (told_by W.contents self.new) piece.now) }
        ensures err { OnErr result
            (AppendsFront (told_by W.contents self.old) (told_by W.contents self.new) piece.now) }
        ensures passed { OnOk result (times_failed self.new ≡ times_failed self.old) }
        ensures failed { OnErr result (times_failed self.new ≡ counted (times_failed self.old)) }
        ensures cause { HasCause (times_failed self.old) (times_failed self.new) result }
    {
        let result = write_whole(&mut self.stream, piece);
        if result.is_err() {
            self.faults = self.faults.saturating_add(1);
        }
        result
    }
}

/// Writes a piece of any length, and has it leave each buffer.
fn write_whole<W: Write>(stream: &mut W, piece: &[u8]) -> Result<(), Failed>
    ensures ok { OnOk result (Appends (W.contents stream.old) (W.contents stream.new) piece.now) }
    ensures err { OnErr result
        (AppendsFront (W.contents stream.old) (W.contents stream.new) piece.now) }
{
    let mut rest = piece;
    while !rest.is_empty() {
        let taken = write_some(stream, rest)?;
        rest = rest.split_at(taken).1;
    }
    stream.flush().map_err(|_| Failed)
}

/// How many bytes of a piece one write took. A write that takes none has failed, and one that a
/// signal interrupts is tried again.
fn write_some<W: Write>(stream: &mut W, piece: &[u8]) -> Result<usize, Failed>
    ensures some { IfOk result (λ n. 0 < n) }
    ensures at_most { IfOk result (λ n. n ≤ length piece.now) }
    ensures ok { IfOk result
        (λ n. Appends (W.contents stream.old) (W.contents stream.new) (take n piece.now)) }
    ensures err { OnErr result
        (AppendsFront (W.contents stream.old) (W.contents stream.new) piece.now) }
{
    for _ in 0..u64::MAX {
        match stream.write(piece) {
            Ok(0) => return Err(Failed),
            Ok(taken) => return Ok(taken),
            Err(fault) => {
                if fault.kind() != ErrorKind::Interrupted {
                    return Err(Failed);
                }
            }
        }
    }
    Err(Failed)
}
