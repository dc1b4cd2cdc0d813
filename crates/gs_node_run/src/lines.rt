ghost use Rattle.std.specs.Prelude.{◌≡◌, ◌++◌, ◌∷◌, All, IfOk, IfSome, IfNone, codes, decimal, string_bytes};
ghost use Rattle.gs_board.specs.Boards.{ledger_in};
ghost use Rattle.gs_board.specs.Torn.{IsWhole};
ghost use Rattle.gs_cli.specs.Reply.{answer_in};
ghost use Rattle.gs_node_run.specs.Lines.{IsAnswerOf, IsTornAt, Says, clock_answer, entry_words, event_words, plain_answer, torn_answer, torn_words};
ghost use Rattle.gs_node_run.specs.inside.Told.{Refuses};
ghost use Rattle.gs_node_run.specs.inside.Traced.{status_of};

use gs_board::{Board, Halt, Seat, Told, Torn};
use gs_cli::{Reply, Status, Stop};
use gs_clock::Clock;
use gs_core::NodeEvent;
use gs_io::Sink;
use gs_node::End;
use std::alloc::{AllocError, Global};

/// The status of an end.
pub fn status_of(end: End) -> Status
    ensures { result ≡ status_of end }
{
    match end {
        End::Torn(_) => Status::Torn,
        End::NoThread => Status::NoThread,
        End::ClockFault(_) => Status::ClockFault,
        End::ClockEnd => Status::ClockEnd,
        End::JournalEnd => Status::JournalEnd,
        End::LinkFault => Status::LinkFault,
        End::OutOfMemory => Status::OutOfMemory,
        End::Done => Status::Done,
    }
}

/// Tells why a run did not begin, and answers the status.
pub fn refuse<S: Sink>(say: &mut S, stop: &Stop) -> Status
    ensures { Refuses stop.now (S.bytes say.old) (S.bytes say.new) (S.faults say.old) (S.faults say.new) result }
{
    match stop {
        Stop::OutOfMemory => Status::OutOfMemory,
        Stop::Refused(reply) => {
            tell(say, reply);
            status_in(reply)
        }
    }
}

fn status_in(reply: &Reply) -> Status
    ensures { result ≡ (answer_in reply.now).status }
{
    match reply {
        Reply::Line(status, _) => *status,
        Reply::Text(status, _) => *status,
        Reply::File(_) => Status::Done,
    }
}

/// Writes a line. Where that fails nothing else changes.
pub fn tell<S: Sink>(say: &mut S, reply: &Reply)
    ensures { Says (answer_in reply.now).text (S.bytes say.old) (S.bytes say.new) (S.faults say.old) (S.faults say.new) }
{
    let _status = reply.write(say);
}

/// The line of a status that says no more than the status, and nothing for every other.
pub fn plain_line(status: Status) -> Reply
    ensures { answer_in result ≡ plain_answer status }
{
    let line = match status {
        Status::ClockFault => "clock failed\n",
        Status::LinkFault => "link failed\n",
        Status::NoThread => "no thread\n",
        Status::ClockEnd => "clock end\n",
        Status::JournalEnd => "journal end\n",
        _ => "",
    };
    Reply::Line(status, line)
}

/// The line of a status of a node that was served.
pub fn line_of<C: Clock>(
    alloc: Global,
    status: Status,
    board: &Board<C>,
    seats: &[Seat<C>],
) -> Result<Reply, AllocError>
    requires torn { status ≡ Status.Torn → ¬ All (IsWhole (ledger_in board.now)) seats.now }
    ensures { IfOk result (λ reply. IsAnswerOf (ledger_in board.now) seats.now status (answer_in reply)) }
{
    match status {
        Status::ClockFault => clock_line(alloc, board.halt()),
        Status::Torn => first_torn_line(alloc, board, seats),
        other => Ok(plain_line(other)),
    }
}

/// The line of a fault of the board's clock, or of the view clock.
fn clock_line(alloc: Global, halt: Option<Halt>) -> Result<Reply, AllocError>
    ensures { IfOk result (λ reply. answer_in reply ≡ clock_answer halt) }
{
    match halt {
        Some(Halt::Fell { last, now }) => {
            let readings = format!(in alloc; "{last} {now}")?;
            Reply::line_of(alloc, Status::ClockFault, "clock fell: ", readings.as_str())
        }
        _ => Ok(plain_line(Status::ClockFault)),
    }
}

/// The line of the first seat that differs from the board.
fn first_torn_line<C: Clock>(
    alloc: Global,
    board: &Board<C>,
    seats: &[Seat<C>],
) -> Result<Reply, AllocError>
    requires { ¬ All (IsWhole (ledger_in board.now)) seats.now }
    ensures { IfOk result (λ reply. IsAnswerOf (ledger_in board.now) seats.now Status.Torn (answer_in reply)) }
{
    match first_torn(board, seats) {
        Some((place, torn)) => torn_line(alloc, place, &torn),
        None => unreachable!(),
    }
}

/// The place of the first seat that differs from the board, and how it differs.
fn first_torn<C: Clock>(board: &Board<C>, seats: &[Seat<C>]) -> Option<(usize, Torn)>
    ensures some { IfSome result (λ found. IsTornAt (ledger_in board.now) seats.now found.0 found.1) }
    ensures none { IfNone result (All (IsWhole (ledger_in board.now)) seats.now) }
{
    for (place, seat) in seats.iter().enumerate() {
        if let Some(torn) = board.compare(seat) {
            return Some((place, torn));
        }
    }
    None
}

fn torn_line(alloc: Global, place: usize, torn: &Torn) -> Result<Reply, AllocError>
    ensures { IfOk result (λ reply. answer_in reply ≡ torn_answer place torn.now) }
{
    let what = torn_text(alloc, torn)?;
    let words = format!(in alloc; "{place} {what}")?;
    Reply::line_of(alloc, Status::Torn, "torn seat ", words.as_str())
}

fn torn_text(alloc: Global, torn: &Torn) -> Result<String, AllocError>
    ensures { IfOk result (λ text. string_bytes text ≡ torn_words torn.now) }
{
    match torn {
        Torn::Frame => String::from_str(alloc, "frame"),
        Torn::Entry { index, told, kept } => {
            let told = entry_text(alloc, told)?;
            let kept = entry_text(alloc, kept)?;
            format!(in alloc; "index {index} told {told} kept {kept}")
        }
    }
}

fn entry_text(alloc: Global, told: &Option<Told>) -> Result<String, AllocError>
    ensures { IfOk result (λ text. string_bytes text ≡ entry_words told.now) }
{
    match told {
        None => String::from_str(alloc, "none"),
        Some(told) => event_text(alloc, &told.event),
    }
}

fn event_text(alloc: Global, event: &NodeEvent) -> Result<String, AllocError>
    ensures { IfOk result (λ text. string_bytes text ≡ event_words event.now) }
{
    match event {
        NodeEvent::Tick { hw } => format!(in alloc; "tick {hw}"),
        NodeEvent::Deliver { hw, beacon } => {
            let (sender, seq) = (beacon.sender, beacon.seq);
            format!(in alloc; "deliver {hw} {sender} {seq}")
        }
    }
}
