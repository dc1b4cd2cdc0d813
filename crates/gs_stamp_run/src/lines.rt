ghost use Rattle.std.specs.Prelude.{◌≡◌, ◌⊎◌, ◌≤◌, [], IfOk, IfErr, OnErr, OnOk, Err};
ghost use Rattle.gs_io.specs.Causes.{Rose};
ghost use Rattle.gs_io.specs.Held.{Appends, AppendsFront};
ghost use Rattle.gs_stamp_run.specs.Lines.{IsCut, IsOfStamp, Wrote, line_of, status_line};

use gs_cli::Status;
use gs_io::{Failed, Sink};
use gs_text::Lines;
use std::alloc::{AllocError, Global};

/// The line of a stamp.
fn line_of(alloc: Global, stamp: u64) -> Result<Lines, AllocError>
    ensures { IfOk result (λ line. line ≡ line_of stamp) }
{
    let mut line = Lines::new(alloc);
    line.num(u128::from(stamp))?;
    line.end()?;
    Ok(line)
}

/// Writes the line of a stamp.
#[tactic(auto, using(crate::proofs::Writing::nothing_written))]
pub(crate) fn write_stamp<K: Sink>(alloc: Global, out: &mut K, stamp: u64) -> Result<(), Status>
    ensures ok { OnOk result (Appends (K.bytes out.old) (K.bytes out.new) (line_of stamp)) }
    ensures err { OnErr result (AppendsFront (K.bytes out.old) (K.bytes out.new) (line_of stamp)) }
    ensures cut { IfErr result IsCut }
    ensures of_stamp { IfErr result IsOfStamp }
    ensures failed { result ≡ Err Status.WriteFault → Rose (K.faults out.old) (K.faults out.new) }
    ensures later { K.faults out.old ≤ K.faults out.new }
{
    let Ok(line) = line_of(alloc, stamp) else {
        return Err(Status::OutOfMemory);
    };
    match out.write(line.bytes()) {
        Ok(()) => Ok(()),
        Err(Failed) => Err(Status::WriteFault),
    }
}

/// The line of a status, empty where it has none.
fn status_line(status: Status) -> &'static str
    ensures { result.now ≡ status_line status }
{
    match status {
        Status::Usage => "usage: gradsync plan, play, trace, audit, replay, gen or node\n",
        Status::ClockFault => "clock failed\n",
        Status::StoreFault => "store failed\n",
        Status::StampEnd => "stamp end\n",
        _ => "",
    }
}

/// Writes the line of a status, and answers it; `WriteFault` where that fails.
#[tactic(auto, using(crate::proofs::Going::line_written))]
pub(crate) fn told<K: Sink>(out: &mut K, status: Status) -> Status
    ensures wrote { Wrote [] result (K.bytes out.old) (K.bytes out.new) }
    ensures either { (result ≡ status)
        ⊎ ((result ≡ Status.WriteFault) × Rose (K.faults out.old) (K.faults out.new)) }
    ensures of_stamp { IsOfStamp status → IsOfStamp result }
    ensures later { K.faults out.old ≤ K.faults out.new }
{
    match out.write(status_line(status).as_bytes()) {
        Ok(()) => status,
        Err(Failed) => Status::WriteFault,
    }
}
