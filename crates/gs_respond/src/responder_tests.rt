use crate::{Responding, Rest};
use gs_board::{Board, Shared};
use gs_clock::MemClock;
use gs_crew::Task;
use gs_net::{Item, MemDoor, Payload};
use gs_units::{Links, Mode, NodeParams, Rate};
use gs_view::{Publisher, Snap};
use std::alloc::{AllocError, Global};
use std::sync::{Mutex, Wait};
use std::test::Fail;

/// What comes to a door: a letter for each item. A digit is a request with that number, `x` a datagram
/// that is none, and `-` a quiet mark.
fn items(alloc: Global, letters: &str) -> Result<Vec<Item>, AllocError> {
    let mut items = Vec::new(alloc);
    for letter in letters.bytes() {
        let item = match letter {
            b'-' => Item::Quiet,
            b'x' => Item::Datagram(Payload::from_vec(Vec::from_slice(alloc, b"GCSQ\0\0\0\x05")?)),
            number => Item::Datagram(Payload::from_vec(request(alloc, number)?)),
        };
        items.push(item)?;
    }
    Ok(items)
}

fn request(alloc: Global, number: u8) -> Result<Vec<u8>, AllocError> {
    let mut bytes = *b"GCSQ\0\0\0\0\0\0\0\0\0\0\0\0";
    bytes[15] = number;
    Vec::from_slice(alloc, &bytes)
}

/// A board of node 0 that has no neighbour, closed or not.
fn shared(alloc: Global, closed: bool) -> Result<Shared<MemClock>, Fail> {
    let params = NodeParams {
        cluster: 7,
        node: 0,
        links: Links::from_vec(Vec::new(alloc)),
        rate: Rate::new(10_000, 10_001, 2_000)?,
        iota: 2_201,
        every: 1,
    };
    let clock = MemClock::new([0].to_vec(alloc)?, Vec::new(alloc));
    let mut board = match Board::new(alloc, params, 0, clock) {
        Ok(board) => board,
        Err((stop, _)) => return Err(stop)?,
    };
    if closed {
        board.close();
    }
    Ok(Mutex::new(board))
}

/// Whether the replies are the answers of node 3 to these numbers, each with its clock.
fn are_answers(replies: &[[u8; 24]], wanted: &[(u8, u64)]) -> bool {
    for (reply, (number, clock)) in replies.iter().zip(wanted.iter()) {
        let mut answer = *b"GCSA\0\0\0\x03\0\0\0\0\0\0\0\0\0\0\0\0\0\0\0\0";
        answer[15] = *number;
        answer[16..].copy_from_slice(&clock.to_be_bytes());
        if *reply != answer {
            return false;
        }
    }
    replies.len() == wanted.len()
}

/// What a responder of node 3 meets, and what it does.
#[derive(Drop)]
struct Case<'a> {
    items: &'a str,
    // The number of the door's call, and of the clock's read, that fails; 0 for none.
    door_fails: u64,
    clock_fails: u64,
    closed: bool,
    rest: Rest,
    answers: &'a [(u8, u64)],
}

fn holds<R: Wait + Sync>(rt: &R, alloc: Global, case: &Case<'_>) -> Result<bool, Fail> {
    let board = shared(alloc, case.closed)?;
    let door = MemDoor::new(
        alloc,
        items(alloc, case.items)?,
        [case.door_fails].to_vec(alloc)?,
    );
    let readings = [2_000_500, 2_000_400, 2_000_700].to_vec(alloc)?;
    let clock = MemClock::new(readings, [case.clock_fails].to_vec(alloc)?);
    let first = Snap {
        place: 0,
        l: 2_000_000,
        at: 2_000_000,
        mode: Mode::Slow,
    };
    let (publisher, reader) = Publisher::new(alloc, Rate::new(10_000, 10_001, 2_000)?, first)?;
    let mut task = Responding::new(rt, &board, 3, door, clock, reader);
    task.run();
    let responded = task.end();
    publisher.end(rt);
    Ok(
        responded.rest == case.rest
            && responded.rest.is_at_rest() == (case.door_fails == 0 && case.clock_fails == 0)
            && are_answers(responded.door.replies(), case.answers),
    )
}

/// 64 datagrams that are no request, and then one that is.
const MANY: &str = "xxxxxxxxxxxxxxxxxxxxxxxxxxxxxxxxxxxxxxxxxxxxxxxxxxxxxxxxxxxxxxxx5";

#[test]
fn answers_are_right_and_their_clocks_never_fall(rt: HostRuntime) -> Result<(), Fail> {
    let all = [(b'5', 2_000_500), (b'6', 2_000_500), (b'7', 2_000_700)];
    for (items, door_fails, clock_fails, closed, rest, answers) in [
        ("5x6-7", 0, 0, false, Rest::Ended, 3),
        ("5x6-7", 0, 0, true, Rest::Quiet, 2),
        ("5x6-7", 4, 0, false, Rest::Door, 1),
        ("5x6-7", 2, 0, false, Rest::Door, 0),
        ("5x6-7", 0, 2, false, Rest::Clock, 1),
        (MANY, 0, 0, true, Rest::Many, 0),
        (MANY, 0, 0, false, Rest::Ended, 1),
    ] {
        let case = Case {
            items,
            door_fails,
            clock_fails,
            closed,
            rest,
            answers: &all[..answers],
        };
        let as_said = holds(&rt, rt.alloc(), &case)?;
        assert!(rt; as_said);
    }
    Ok(())
}
