ghost use Rattle.std.specs.Prelude.{◌≡◌, ℕ, None, IfOk};
ghost use Rattle.gs_io.specs.Causes.{HasCause};
ghost use Rattle.gs_stamp.specs.Tears.{untold};

use crate::Store;
use gs_io::Failed;
use std::alloc::{AllocError, Global};
use std::fs::{OpenFile, OpenOptions};
use std::io::{self, Read, Seek, SeekFrom, Write};
use std::path::Path;
use std::rt::Files as Disk;

/// How many bytes a store has.
const SIZE: u64 = 18;

/// A store in a file, of which nothing is told: what the system keeps of it no contract can say. The
/// file is opened at the first call, and one that is missing or empty is made of 18 zero bytes.
#[derive(Drop)]
pub struct FileStore<R: Disk> {
    disk: R,
    name: String,
    file: Option<R::File>,
    faults: u64,
}

impl<R: Disk + Drop> FileStore<R> {
    /// A store in the file of this name, which is not opened yet.
    pub fn new(alloc: Global, disk: R, name: &str) -> Result<FileStore<R>, AllocError>
        ensures { IfOk result (λ store. ⟦<FileStore<R> as Store>⟧.faults store ≡ 0) }
    {
        let name = String::from_str(alloc, name)?;
        Ok(FileStore {
            disk,
            name,
            file: None,
            faults: 0,
        })
    }

    /// Answers a call's result, and counts a failure.
    fn answer(&mut self, answer: io::Result<()>) -> Result<(), Failed>
        ensures cause { HasCause self.old.faults self.new.faults result }
    {
        if answer.is_err() {
            self.faults = self.faults.saturating_add(1);
            return Err(Failed);
        }
        Ok(())
    }
}

impl<R: Disk + Drop> Store for FileStore<R> {
    ghost seen = { λ store. None };

    ghost may_leave = { λ store c. ⊥ };

    ghost moment = { λ store. 0 };

    ghost left_since = { λ store t c. ⊥ };

    ghost faults = { λ store. store.faults };

    fn read(&mut self, into: &mut [u8; 18]) -> Result<(), Failed> {
        let read = read_all(&self.disk, self.name.as_str(), &mut self.file, into);
        self.answer(read)
    }

    fn write(&mut self, at: u32, piece: &[u8]) -> Result<(), Failed> {
        let written = write_at(&self.disk, self.name.as_str(), &mut self.file, at, piece);
        self.answer(written)
    }

    fn sync(&mut self) -> Result<(), Failed> {
        let synced = sync_all(&self.disk, self.name.as_str(), &mut self.file);
        self.answer(synced)
    }

    ghost size = { λ store c left. absurd left };

    ghost seen_may_stay = { λ store c is. untold c is };

    ghost counts_now = { λ store t c late left. left };

    ghost only_now = { λ store c left. left };
}

fn read_all<R: Disk>(
    disk: &R,
    name: &str,
    file: &mut Option<R::File>,
    into: &mut [u8],
) -> io::Result<()> {
    let mut open = taken(disk, name, file)?;
    let result = read_from(&mut open, into);
    *file = Some(open);
    result
}

fn write_at<R: Disk>(
    disk: &R,
    name: &str,
    file: &mut Option<R::File>,
    at: u32,
    piece: &[u8],
) -> io::Result<()> {
    let mut open = taken(disk, name, file)?;
    let result = write_to(&mut open, at, piece);
    *file = Some(open);
    result
}

fn sync_all<R: Disk>(disk: &R, name: &str, file: &mut Option<R::File>) -> io::Result<()> {
    let open = taken(disk, name, file)?;
    let result = open.sync_all();
    *file = Some(open);
    result
}

fn read_from<F: Read + Seek>(file: &mut F, into: &mut [u8]) -> io::Result<()> {
    file.seek(SeekFrom::Start(0))?;
    file.read_exact(into)
}

fn write_to<F: Write + Seek>(file: &mut F, at: u32, piece: &[u8]) -> io::Result<()> {
    file.seek(SeekFrom::Start(u64::from(at)))?;
    file.write_all(piece)
}

/// The open file; at the first call it is opened, and made if need be.
fn taken<R: Disk>(disk: &R, name: &str, file: &mut Option<R::File>) -> io::Result<R::File> {
    match file.take() {
        Some(file) => Ok(file),
        None => open_or_make(disk, name),
    }
}

/// Opens a file. Where it is missing, or empty as a crash at its making may leave it, it is given its
/// zero bytes. Its name is on the disk before it has them, so that a file with bytes never lacks one.
fn open_or_make<R: Disk>(disk: &R, name: &str) -> io::Result<R::File> {
    let file = OpenOptions::new()
        .read(true)
        .write(true)
        .create(true)
        .open(disk, name)?;
    if file.metadata()?.len() == 0 {
        sync_folder(disk, name)?;
        file.set_len(SIZE)?;
        file.sync_all()?;
    }
    Ok(file)
}

/// Sees to it that the name of a file is on the disk.
fn sync_folder<R: Disk>(disk: &R, name: &str) -> io::Result<()> {
    let folder = match Path::new(name).parent() {
        Some(folder) => folder.to_string_lossy(),
        None => ".",
    };
    let folder = if folder.is_empty() { "." } else { folder };
    OpenOptions::new().read(true).open(disk, folder)?.sync_all()
}
