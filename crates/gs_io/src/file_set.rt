ghost use Rattle.std.specs.Prelude.{◌≡◌, ◌≢◌, ℕ, ◌<◌, ◌≤◌, List, [], ◌∷◌, ◌++◌, length, map, string_bytes};
ghost use Rattle.std.specs.Prelude.{◌⊎◌, Option, Some, None, IfSome, IsNone, IsSomeAnd, IfOk, IfErr, IsTrue, OnOk, OnErr};
ghost use Rattle.std.specs.IoError.{error_kind};
ghost use Rattle.gs_io.specs.Causes.{Rose, counted, is_to_fail};
ghost use Rattle.gs_io.specs.Adapters.{times_unread};
ghost use Rattle.gs_io.specs.Held.{Shelf, after_failed_read, after_read, after_unrecorded_read};
ghost use Rattle.gs_io.specs.Held.{failures, first_named, found, with_failure, with_unrecorded};

use std::alloc::{AllocError, Global};
use std::fs;
use std::io::{self, ErrorKind, Read};
use std::marker::Model;
use std::rt::Files as Disk;
use thiserror::Error;

/// Why a file was not read.
#[derive(Clone, Copy, Debug, PartialEq, Eq, Error)]
pub enum FileStop {
    /// The outside failed: there is no such file, or it cannot be read.
    #[error("the file cannot be read")]
    Failed,
    /// The file has more bytes than the caller takes.
    #[error("the file is too long")]
    TooLong,
    /// Memory for the bytes, or for the record of a failure, was refused.
    #[error("out of memory")]
    OutOfMemory,
}

/// Where files are read by name.
pub trait Files {
    /// The bytes of each name, where it tells them; in it `None` is a name without a file.
    ghost content: { Self → Option (List ℕ → Option (List ℕ)) };

    /// How often the reading of each name has failed.
    ghost faults: { Self → List ℕ → ℕ };

    /// The bytes of the file, of which there are at most `most`.
    fn read(&mut self, alloc: Global, name: &str, most: u64) -> Result<Vec<u8>, FileStop>
        ensures bytes { IfOk result
            (λ bytes. IfSome (content self.old) (λ told. told name.now ≡ Some bytes.items)) }
        ensures at_most { IfOk result (λ bytes. length bytes.items ≤ most) }
        ensures too_long { result ≡ Err FileStop.TooLong
            → IfSome (content self.old)
            (λ told. IsSomeAnd (told name.now) (λ bytes. most < length bytes)) }
        ensures failed { result ≡ Err FileStop.Failed
            → Rose (faults self.old name.now) (faults self.new name.now) }
        ensures later { (other : List ℕ) → faults self.old other ≤ faults self.new other }
        ensures same { content self.new ≡ content self.old };
}

/// Files in memory. Of a name that is given twice the first counts. The reads whose numbers it was
/// given, from 1, fail, and so does the reading of a name without a file; neither is ever want of
/// memory. A failed read raises the count of its own name alone. Names are kept for this as they
/// fail, and where memory for one is refused, the failure counts for every name.
#[derive(Drop)]
pub struct MemFiles {
    files: Vec<(String, Vec<u8>)>,
    fails: Vec<u64>,
    calls: u64,
    failed: Vec<String>,
    unrecorded: u64,
}

impl Model for MemFiles {
    ghost Value = { Shelf };

    ghost view = { λ shelf. record {
      files = map (λ file. (string_bytes file.0, file.1.items)) shelf.files.items;
      fails = shelf.fails.items;
      calls = shelf.calls;
      failed = map string_bytes shelf.failed.items;
      unrecorded = shelf.unrecorded;
    } };
}

impl MemFiles {
    /// Files by name. `fails` are the numbers of the reads that are to fail.
    pub fn new(alloc: Global, files: Vec<(String, Vec<u8>)>, fails: Vec<u64>) -> Self
        ensures { result ≡ record {
          files = map (λ file. (string_bytes file.0, file.1.items)) files.items;
          fails = fails.items;
          calls = 0;
          failed = [];
          unrecorded = 0;
        } }
    {
        MemFiles {
            files,
            fails,
            calls: 0,
            failed: Vec::new(alloc),
            unrecorded: 0,
        }
    }

    /// The file of this name, unless this call is to fail.
    fn found(&self, name: &str) -> Option<&[u8]>
        ensures some { IfSome result (λ bytes. found self.now self.now.calls name.now ≡ Some bytes.now) }
        ensures none { IsNone result → found self.now self.now.calls name.now ≡ None }
    {
        if self.fails.contains(&self.calls) {
            return None;
        }
        first_of(&self.files, name)
    }

    /// Counts a failed read of this name, or of every name where the name finds no memory.
    fn count_failure(&mut self, alloc: Global, name: &str)
        ensures counted { (self.new ≡ with_failure self.old name.now) ⊎ (self.new ≡ with_unrecorded self.old) }
        ensures later { self.old.unrecorded ≤ self.new.unrecorded }
    {
        if record(alloc, &mut self.failed, name).is_err() {
            self.unrecorded = self.unrecorded.saturating_add(1);
        }
    }
}

impl Files for MemFiles {
    ghost content = { λ shelf. Some (first_named shelf.files) };

    ghost faults = { failures };

    fn read(&mut self, alloc: Global, name: &str, most: u64) -> Result<Vec<u8>, FileStop>
        ensures gives { IfOk result
            (λ bytes. found self.old (counted self.old.calls) name.now ≡ Some bytes.items) }
        ensures at_most { IfOk result (λ bytes. length bytes.items ≤ most) }
        ensures longer { result ≡ Err FileStop.TooLong
            → IsSomeAnd (found self.old (counted self.old.calls) name.now)
            (λ bytes. most < length bytes) }
        ensures cut { IfSome (found self.old (counted self.old.calls) name.now)
            (λ bytes. most < length bytes → result ≡ Err FileStop.TooLong) }
        ensures nothing { result ≡ Err FileStop.Failed
            → found self.old (counted self.old.calls) name.now ≡ None }
        ensures named { IsTrue (is_to_fail self.old.fails (counted self.old.calls))
            → result ≡ Err FileStop.Failed }
        ensures missing { first_named self.old.files name.now ≡ None
            → result ≡ Err FileStop.Failed }
        ensures unfailed { result ≢ Err FileStop.Failed → self.new ≡ after_read self.old }
        ensures recorded { result ≡ Err FileStop.Failed
            → (self.new ≡ after_failed_read self.old name.now)
            ⊎ (self.new ≡ after_unrecorded_read self.old) }
        ensures failed { result ≡ Err FileStop.Failed
            → Rose (failures self.old name.now) (failures self.new name.now) }
        ensures later { (other : List ℕ) → failures self.old other ≤ failures self.new other }
        ensures alone { (other : List ℕ) → other ≢ name.now
            → (failures self.new other ≡ failures self.old other)
            ⊎ (self.new ≡ after_unrecorded_read self.old) }
    {
        self.calls = self.calls.saturating_add(1);
        match self.found(name) {
            Some(bytes) => copy_of(alloc, bytes, most),
            None => {
                self.count_failure(alloc, name);
                Err(FileStop::Failed)
            }
        }
    }
}

/// The bytes of the first file of this name.
fn first_of<'a>(files: &'a [(String, Vec<u8>)], name: &str) -> Option<&'a [u8]>
    ensures first { IfSome result (λ bytes.
        first_named (map (λ file. (string_bytes file.0, file.1.items)) files.now) name.now ≡ Some bytes.now) }
    ensures no_file { IsNone result
        → first_named (map (λ file. (string_bytes file.0, file.1.items)) files.now) name.now ≡ None }
{
    for (held, bytes) in files {
        if held.as_str() == name {
            return Some(bytes);
        }
    }
    None
}

/// A copy of bytes of which there are at most `most`.
fn copy_of(alloc: Global, bytes: &[u8], most: u64) -> Result<Vec<u8>, FileStop>
    ensures bytes { IfOk result (λ copy. copy.items ≡ bytes.now) }
    ensures at_most { OnOk result (length bytes.now ≤ most) }
    ensures too_long { result ≡ Err FileStop.TooLong → most < length bytes.now }
    ensures cut { most < length bytes.now → result ≡ Err FileStop.TooLong }
    ensures unfailed { (result ≡ Err FileStop.Failed) → ⊥ }
{
    if bytes.len() as u64 > most {
        return Err(FileStop::TooLong);
    }
    Vec::from_slice(alloc, bytes).map_err(|_| FileStop::OutOfMemory)
}

/// Keeps the name of a failed read.
fn record(alloc: Global, failed: &mut Vec<String>, name: &str) -> Result<(), AllocError>
    ensures ok { OnOk result (map string_bytes failed.new.items ≡ map string_bytes failed.old.items ++ name.now ∷ []) }
    ensures err { OnErr result (failed.new.items ≡ failed.old.items) }
{
    let name = String::from_str(alloc, name)?;
    failed.push(name)?;
    Ok(())
}

/// The files of the machine, which tell nothing. One count stands for every name.
#[derive(Drop)]
pub struct OsFiles<R> {
    disk: R,
    faults: u64,
}

impl<R: Disk> OsFiles<R> {
    /// Files that this runtime opens.
    pub fn new(disk: R) -> Self
        ensures { (name : List ℕ) → ⟦<OsFiles<R> as Files>⟧.faults result name ≡ 0 }
    {
        OsFiles { disk, faults: 0 }
    }
}

impl<R: Disk> Files for OsFiles<R> {
    ghost content = { λ files. None };

    ghost faults = { λ files name. files.faults };

    /// Of a file that is too long one byte more than `most` is read.
    fn read(&mut self, alloc: Global, name: &str, most: u64) -> Result<Vec<u8>, FileStop>
        ensures at_most { IfOk result (λ bytes. length bytes.items ≤ most) }
        ensures failed { result ≡ Err FileStop.Failed
            → times_unread self.new ≡ counted (times_unread self.old) }
        ensures unfailed { result ≢ Err FileStop.Failed
            → times_unread self.new ≡ times_unread self.old }
        ensures rose { result ≡ Err FileStop.Failed
            → Rose (times_unread self.old) (times_unread self.new) }
        ensures later { times_unread self.old ≤ times_unread self.new }
    {
        let read = read_opened(alloc, fs::open(&self.disk, name), most);
        if let Err(FileStop::Failed) = read {
            self.faults = self.faults.saturating_add(1);
        }
        read
    }
}

/// All bytes of what was opened, if it was.
pub(crate) fn read_opened<F: Read + Drop>(
    alloc: Global,
    opened: io::Result<F>,
    most: u64,
) -> Result<Vec<u8>, FileStop>
    ensures bytes { IfOk opened (λ file.
        IfOk result (λ bytes. IfSome (F.remaining file) (λ told. bytes.items ≡ told))) }
    ensures at_most { IfOk result (λ bytes. length bytes.items ≤ most) }
    ensures too_long { IfOk opened (λ file. result ≡ Err FileStop.TooLong
        → IfSome (F.remaining file) (λ told. most < length told)) }
    ensures memory { IfErr opened (λ fault.
        error_kind fault ≡ ErrorKind.OutOfMemory → result ≡ Err FileStop.OutOfMemory) }
    ensures failed { IfErr opened (λ fault.
        error_kind fault ≢ ErrorKind.OutOfMemory → result ≡ Err FileStop.Failed) }
{
    match opened {
        Ok(file) => read_all(alloc, file, most),
        Err(fault) => Err(stop_at(&fault)),
    }
}

/// All bytes that a reader gives, of which there are at most `most`. It reads one more at most.
fn read_all<F: Read + Drop>(alloc: Global, file: F, most: u64) -> Result<Vec<u8>, FileStop>
    ensures bytes { IfOk result (λ bytes. IfSome (F.remaining file) (λ told. bytes.items ≡ told)) }
    ensures at_most { IfOk result (λ bytes. length bytes.items ≤ most) }
    ensures too_long { result ≡ Err FileStop.TooLong
        → IfSome (F.remaining file) (λ told. most < length told) }
{
    let mut bytes = Vec::new(alloc);
    if let Err(fault) = file.take(most.saturating_add(1)).read_to_end(&mut bytes) {
        return Err(stop_at(&fault));
    }
    if bytes.len() as u64 > most {
        return Err(FileStop::TooLong);
    }
    Ok(bytes)
}

/// Running out of memory is told by the kind of the fault alone.
fn stop_at(fault: &io::Error) -> FileStop
    ensures memory { error_kind fault.now ≡ ErrorKind.OutOfMemory → result ≡ FileStop.OutOfMemory }
    ensures failed { error_kind fault.now ≢ ErrorKind.OutOfMemory → result ≡ FileStop.Failed }
{
    match fault.kind() {
        ErrorKind::OutOfMemory => FileStop::OutOfMemory,
        _ => FileStop::Failed,
    }
}
