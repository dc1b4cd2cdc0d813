//! What the words PLAN and SCRIPT name: built-in inputs and files. See `docs/FORMATS.md`, "Commands".

ghost use Rattle.std.specs.Prelude.{◌≡◌, ◌≤◌, ℕ, List, IfOk, IfErr, Some, None, true};
ghost use Rattle.std.specs.Prelude.{option_map, if◌then◌else◌, drop, length};
ghost use Rattle.gs_inputs.specs.SourceSeen.{source_in};
ghost use Rattle.gs_inputs.specs.Sources.{IsFault, IsFile, IsRead, IsUnread, is_built_in, prefix_of, seen};
ghost use Rattle.gs_cli.specs.Stops.{StopsWith};

use gs_cli::{Status, Stop};
use gs_io::{FileStop, Files};
use std::alloc::Global;

/// The most bytes of a plan or a script.
const MOST_BYTES: u64 = 1_048_576;

/// Which of the two inputs a word names.
#[derive(Clone, Copy, Debug, PartialEq, Eq)]
pub enum Kind {
    Plan,
    Script,
}

/// An input that was read.
#[derive(Drop)]
pub enum Source<'w> {
    /// What follows the prefix of a built-in input.
    Count(&'w str),
    /// The bytes of a file.
    Text(Vec<u8>),
}

/// What follows the prefix, if the word names a built-in input of this kind.
fn count_after(kind: Kind, word: &str) -> Option<&str>
    ensures { option_map (λ count. count.now) result
        ≡ (if is_built_in kind word.now then Some (drop (length (prefix_of kind)) word.now) else None) }
{
    match kind {
        Kind::Plan => word.strip_prefix("base:"),
        Kind::Script => word.strip_prefix("steady:"),
    }
}

/// The bytes of the file of this name, if it can be read and has at most `most` of them; else the line that says
/// which of the two it was.
pub fn read_file<F: Files>(
    alloc: Global,
    files: &mut F,
    name: &str,
    most: u64,
) -> Result<Vec<u8>, Stop>
    ensures ok { IfOk result (λ bytes.
        IsFile most (seen (F.content files.old) (F.faults files.old) (F.faults files.new)) name.now bytes.items) }
    ensures err { IfErr result (StopsWith
        (IsFault most (seen (F.content files.old) (F.faults files.old) (F.faults files.new)) name.now)) }
    ensures same { F.content files.new ≡ F.content files.old }
    ensures later { (other : List ℕ) → F.faults files.old other ≤ F.faults files.new other }
{
    match files.read(alloc, name, most) {
        Ok(bytes) => Ok(bytes),
        Err(FileStop::TooLong) => Err(Stop::refused(alloc, Status::TooLong, "too long: ", name)),
        Err(FileStop::Failed) => Err(Stop::refused(
            alloc,
            Status::ReadFault,
            "read failed: ",
            name,
        )),
        Err(FileStop::OutOfMemory) => Err(Stop::OutOfMemory),
    }
}

/// The source that a word names: a word that begins with the prefix of its kind reads no file, and every other
/// names one.
pub fn read_source<'w, F: Files>(
    alloc: Global,
    files: &mut F,
    kind: Kind,
    word: &'w str,
) -> Result<Source<'w>, Stop>
    ensures ok { IfOk result (λ source.
        IsRead (seen (F.content files.old) (F.faults files.old) (F.faults files.new)) kind word.now (source_in source)) }
    ensures err { IfErr result (StopsWith
        (IsUnread (seen (F.content files.old) (F.faults files.old) (F.faults files.new)) kind word.now)) }
    ensures same { F.content files.new ≡ F.content files.old }
    ensures later { (name : List ℕ) → F.faults files.old name ≤ F.faults files.new name }
    ensures untouched { is_built_in kind word.now ≡ true → files.new ≡ files.old }
{
    match count_after(kind, word) {
        Some(count) => Ok(Source::Count(count)),
        None => Ok(Source::Text(read_file(alloc, files, word, MOST_BYTES)?)),
    }
}
