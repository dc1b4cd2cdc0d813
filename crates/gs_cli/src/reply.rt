ghost use Rattle.std.specs.Prelude.{◌≡◌, ◌⊎◌, ◌++◌, IfOk};
ghost use Rattle.gs_cli.specs.Answers.{Gives, line};

use crate::status::Status;
use gs_io::{Failed, Sink};
use gs_text::Lines;
use std::alloc::{AllocError, Global};

/// What is written for some words, and the status that follows.
#[derive(Drop)]
pub enum Reply {
    /// One line, with its line feed.
    Line(Status, &'static str),
    /// A text of whole lines.
    Text(Status, Lines),
    /// A file, which is written as one piece; its status is `Done`.
    File(Vec<u8>),
}

impl Reply {
    ghost use Rattle.gs_cli.specs.Reply.{answer_in};

    /// A line of two words, of which the first ends with its own space.
    pub fn line_of(
        alloc: Global,
        status: Status,
        first: &str,
        second: &str,
    ) -> Result<Reply, AllocError>
        ensures { IfOk result (λ reply. answer_in reply ≡ line status (first.now ++ second.now)) }
    {
        let mut text = Lines::new(alloc);
        text.word(first)?;
        text.word(second)?;
        text.end()?;
        Ok(Reply::Text(status, text))
    }

    /// Writes all of it, a text one line a write, and answers its status; `WriteFault` where a write
    /// failed, and then a prefix of it was written.
    pub fn write<K: Sink>(&self, out: &mut K) -> Status
        ensures { Gives (answer_in self.now) (K.bytes out.old) (K.bytes out.new)
            (K.faults out.old) (K.faults out.new) result }
    {
        let (status, written) = match self {
            Reply::Line(status, line) => (*status, gs_io::write_lines(out, line.as_bytes())),
            Reply::Text(status, text) => (*status, gs_io::write_lines(out, text.bytes())),
            Reply::File(bytes) => (Status::Done, out.write(bytes)),
        };
        match written {
            Ok(()) => status,
            Err(Failed) => Status::WriteFault,
        }
    }
}
