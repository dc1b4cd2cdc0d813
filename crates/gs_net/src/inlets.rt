ghost use Rattle.std.specs.Prelude.{◌≡◌, ◌≤◌, ℕ, List, Bool, Option, Ok, IsTrue, IfOk, OnOk, OnErr};
ghost use Rattle.gs_io.specs.Causes.{Rose};
ghost use Rattle.gs_net.specs.Tales.{Moves, Tale, added};

use crate::items::Got;
use gs_io::Failed;

/// Where datagrams come from.
pub trait Inlet: Drop {
    /// How often it has failed.
    ghost faults: { Self → ℕ };

    /// The items that it has given and those that are left, where it tells them.
    ghost tale: { Self → Option Tale };

    /// The replies that went out from it, where it tells them. Only a door sends any.
    ghost replies: { Self → Option (List (List ℕ)) };

    /// Whether a datagram was taken from it.
    ghost taken: { Self → Bool };

    /// Takes the first item that is left. A datagram that is longer than 64 bytes is cut.
    fn receive(&mut self, into: &mut [u8; 64]) -> Result<Got, Failed>
        ensures got { IfOk result (λ got. Moves got into.new (tale self.old) (tale self.new)) }
        ensures none_given { OnErr result (tale self.new ≡ tale self.old) }
        ensures at_most { (n : ℕ) → result ≡ Ok (Got.Datagram n) → n ≤ 64 }
        ensures now_taken { (n : ℕ) → result ≡ Ok (Got.Datagram n) → IsTrue (taken self.new) }
        ensures still_taken { IsTrue (taken self.old) → IsTrue (taken self.new) }
        ensures replies { replies self.new ≡ replies self.old }
        ensures cause { OnErr result (Rose (faults self.old) (faults self.new)) }
        ensures never_falls { faults self.old ≤ faults self.new };
}

/// An inlet that answers.
pub trait Door: Inlet {
    /// Sends this to the sender of the datagram that was taken last.
    fn reply(&mut self, answer: &[u8; 24]) -> Result<(), Failed>
        requires { IsTrue (Self.taken self.old) }
        ensures replied { OnOk result
            (Self.replies self.new ≡ added (Self.replies self.old) answer.now) }
        ensures unreplied { OnErr result (Self.replies self.new ≡ Self.replies self.old) }
        ensures tale { Self.tale self.new ≡ Self.tale self.old }
        ensures still_taken { IsTrue (Self.taken self.new) }
        ensures cause { OnErr result (Rose (Self.faults self.old) (Self.faults self.new)) }
        ensures never_falls { Self.faults self.old ≤ Self.faults self.new };
}
