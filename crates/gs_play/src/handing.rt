ghost use Rattle.std.specs.Prelude.{◌≡◌, ◌+◌, ◌<◌, ◌≤◌, ℕ, suc, length, slice_index_or, IfNone, IfSome, OnOk};
ghost use Rattle.gs_plan.specs.Plans.{text_of};
ghost use Rattle.gs_plan.specs.declared.plan.Plan.{Plan};
ghost use Rattle.gs_run.specs.Nets.{net_of};
ghost use Rattle.gs_run.specs.Net.{Net, neighbours};
ghost use Rattle.gs_calendar.specs.Course.{Course, course_of};
ghost use Rattle.gs_calendar.specs.Scripts.{IsReadFor};
ghost use Rattle.gs_calendar.specs.Transits.{Has};
ghost use Rattle.gs_seat.specs.Held.{AreSentIn, IsWindow};
ghost use Rattle.gs_piece.specs.Nodes.{AllHanded, handed_to};
ghost use Rattle.gs_piece.specs.Pieces.{IsPiece, IsPieceIn};
ghost use Rattle.gs_piece.specs.Senders.{IsFirstSender, NoneSends};
ghost use Rattle.gs_piece.specs.declared.piece.Piece.{Piece};
ghost use Rattle.gs_play.specs.inside.Pieces.{ArePieces, ArePiecesIn, CanEnd, handed_below};

use gs_piece::Piece;
use gs_plan::Plan;
use gs_script::Script;
use gs_seat::SentBeacon;
use std::alloc::AllocError;

/// Hands over what all nodes sent in the window, and begins the next. Counts the ticks and deliveries that
/// this stands for: what there was to do, about.
pub(crate) fn hand_over(
    plan: &Plan,
    script: &Script,
    pieces: &mut [Piece],
    size: u32,
    buffer: &mut Vec<SentBeacon>,
) -> Result<u64, AllocError>
    requires read { IsReadFor (text_of plan.now) script.now }
    requires size { 0 < size }
    requires pieces { (m : ℕ) × (t : ℕ) × (m ≤ t) × (t ≤ script.now.quanta) × IsWindow (net_of plan.now) m t
        × ArePiecesIn (net_of plan.now) (course_of script.now) size m t pieces.old }
    ensures count { length pieces.new ≡ length pieces.old }
    ensures pieces { (m t : ℕ) → m ≤ t → t ≤ script.now.quanta → IsWindow (net_of plan.now) m t
        → ArePiecesIn (net_of plan.now) (course_of script.now) size m t pieces.old
        → OnOk result (ArePiecesIn (net_of plan.now) (course_of script.now) size t t pieces.new) }
{
    let mut events: u64 = 0;
    let mut next = 0;
    while let Some(from) = first_sender(pieces, size, next) {
        let more = hand_from(plan, script, pieces, size, from, buffer)?;
        events = events.saturating_add(more);
        next = from + 1;
    }
    end_windows(pieces);
    Ok(events)
}

/// The first node from `from` on that sent anything in the window.
fn first_sender(pieces: &[Piece], size: u32, from: u32) -> Option<u32>
    requires size { 0 < size }
    requires pieces { (p : Plan) × (c : Course) × (by : ℕ → ℕ → ℕ) × (m : ℕ) × (t : ℕ) × (from ≤ (net_of p).nodes)
        × ArePieces (net_of p) c by size m t pieces.now }
    ensures some { (net : Net) (c : Course) (by : ℕ → ℕ → ℕ) (m t : ℕ) → ArePieces net c by size m t pieces.now
        → IfSome result (IsFirstSender net c from 0 net.nodes m t) }
    ensures none { (net : Net) (c : Course) (by : ℕ → ℕ → ℕ) (m t : ℕ) → ArePieces net c by size m t pieces.now
        → IfNone result (NoneSends net c from 0 net.nodes m t) }
{
    for i in (from / size) as usize..pieces.len() {
        if let Some(v) = pieces[i].first_sender(from) {
            return Some(v);
        }
    }
    None
}

/// Begins the next window in each piece.
fn end_windows(pieces: &mut [Piece])
    requires { (i : ℕ) (d : Piece) → i < length pieces.old → CanEnd (slice_index_or pieces.old i d) }
    ensures count { length pieces.new ≡ length pieces.old }
    ensures pieces { (i : ℕ) (d : Piece) (net : Net) (c : Course) (by : ℕ → ℕ → ℕ) (a b m t : ℕ) → i < length pieces.old
        → AllHanded net by a b t → IsPiece net c by a b m t (slice_index_or pieces.old i d)
        → IsPieceIn net c a b t t (slice_index_or pieces.new i d) }
{
    for i in 0..pieces.len() {
        pieces[i].end_window();
    }
}

/// Hands over to all its neighbours what node `from` sent in the window. Counts the ticks that it took and
/// the deliveries that it makes.
fn hand_from(
    plan: &Plan,
    script: &Script,
    pieces: &mut [Piece],
    size: u32,
    from: u32,
    buffer: &mut Vec<SentBeacon>,
) -> Result<u64, AllocError>
    requires read { IsReadFor (text_of plan.now) script.now }
    requires size { 0 < size }
    requires sender { from < (net_of plan.now).nodes }
    requires pieces { (m : ℕ) × (t : ℕ) × (m ≤ t) × (t ≤ script.now.quanta) × IsWindow (net_of plan.now) m t
        × ArePieces (net_of plan.now) (course_of script.now) (handed_below m t from) size m t pieces.old }
    ensures count { length pieces.new ≡ length pieces.old }
    ensures pieces { (m t : ℕ) → m ≤ t → t ≤ script.now.quanta → IsWindow (net_of plan.now) m t
        → ArePieces (net_of plan.now) (course_of script.now) (handed_below m t from) size m t pieces.old
        → OnOk result (ArePieces (net_of plan.now) (course_of script.now) (handed_below m t (suc from)) size m t pieces.new) }
{
    let sent = pieces[(from / size) as usize].sent(from);
    buffer.clear();
    buffer.extend_from_slice(sent)?;
    let neighbours = plan.topo().neighbours(from);
    for i in 0..neighbours.len() {
        give(plan, script, pieces, size, from, neighbours[i], buffer)?;
    }
    let each = u64::from(plan.text().every).saturating_add(neighbours.len() as u64);
    Ok(each.saturating_mul(buffer.len() as u64))
}

/// Node `to` takes over what its neighbour `from` sent in the window.
fn give(
    plan: &Plan,
    script: &Script,
    pieces: &mut [Piece],
    size: u32,
    from: u32,
    to: u32,
    sent: &[SentBeacon],
) -> Result<(), AllocError>
    requires read { IsReadFor (text_of plan.now) script.now }
    requires size { 0 < size }
    requires sender { from < (net_of plan.now).nodes }
    requires neighbours { Has to (neighbours (net_of plan.now) from) }
    requires pieces { (by : ℕ → ℕ → ℕ) × (m : ℕ) × (t : ℕ) × (t ≤ script.now.quanta) × IsWindow (net_of plan.now) m t
        × AreSentIn (net_of plan.now) (course_of script.now) from (by to from) t sent.now
        × ArePieces (net_of plan.now) (course_of script.now) by size m t pieces.old }
    ensures count { length pieces.new ≡ length pieces.old }
    ensures pieces { (by : ℕ → ℕ → ℕ) (m t : ℕ) → t ≤ script.now.quanta → IsWindow (net_of plan.now) m t
        → AreSentIn (net_of plan.now) (course_of script.now) from (by to from) t sent.now
        → ArePieces (net_of plan.now) (course_of script.now) by size m t pieces.old
        → OnOk result (ArePieces (net_of plan.now) (course_of script.now) (handed_to by to from t) size m t pieces.new) }
{
    pieces[(to / size) as usize].take_over(plan, script, from, to, sent)
}
