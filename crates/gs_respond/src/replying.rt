ghost use Rattle.std.specs.Prelude.{◌≡◌, IsTrue};
ghost use Rattle.gs_respond.specs.TimeRequests.{asked_of};
ghost use Rattle.gs_respond.specs.inside.Accounts.{Replies};
ghost use Rattle.gs_respond.specs.inside.Stops.{IsReplied};

use crate::answering::answer;
use crate::rests::Rest;
use crate::time_format::asked;
use gs_clock::Clock;
use gs_net::Door;
use gs_view::Reader;

/// What became of a datagram: the request that is now owed its reply, if one is, and whether to stop.
#[derive(Clone, Copy)]
pub(crate) struct Replied {
    pub(crate) owed: Option<u64>,
    pub(crate) stop: Rest,
}

/// Answers a datagram, if it is a request, with the clock at the next reading.
pub(crate) fn reply<V: Clock, D: Door>(
    door: &mut D,
    view_clock: &mut V,
    reader: &mut Reader,
    node: u32,
    bytes: &[u8],
) -> Replied
    requires { IsTrue (D.Inlet.taken door.old) }
    ensures replies { Replies node (asked_of bytes.now) result.owed
        (D.Inlet.replies door.old) (D.Inlet.replies door.new) reader.old.answer reader.new.answer }
    ensures tale { D.Inlet.tale door.new ≡ D.Inlet.tale door.old }
    ensures stop { IsReplied result.owed result.stop (D.Inlet.faults door.new) (V.faults view_clock.new) }
{
    let Some(number) = asked(bytes) else {
        return Replied {
            owed: None,
            stop: Rest::Open,
        };
    };
    let Ok(hw) = view_clock.read() else {
        return Replied {
            owed: Some(number),
            stop: Rest::Clock,
        };
    };
    let Some(bytes) = answer(reader, node, hw, bytes) else {
        return Replied {
            owed: None,
            stop: Rest::Open,
        };
    };
    match door.reply(&bytes) {
        Ok(()) => Replied {
            owed: None,
            stop: Rest::Open,
        },
        Err(_) => Replied {
            owed: Some(number),
            stop: Rest::Door,
        },
    }
}
