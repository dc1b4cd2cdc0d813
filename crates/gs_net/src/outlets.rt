ghost use Rattle.std.specs.Prelude.{◌≡◌, ◌≤◌, ℕ, List, Option, OnOk, OnErr};
ghost use Rattle.gs_io.specs.Causes.{Rose};
ghost use Rattle.gs_net.specs.Tales.{added};

use gs_io::Failed;

/// Where datagrams go.
pub trait Outlet: Drop {
    /// How often it has failed.
    ghost faults: { Self → ℕ };

    /// The datagrams that it has taken, each with the neighbour that it is for, where it tells them.
    ghost sent: { Self → Option (List (ℕ × List ℕ)) };

    /// Sends the datagram to this neighbour. A call that fails takes nothing.
    fn send(&mut self, neighbour: u32, datagram: &[u8; 40]) -> Result<(), Failed>
        ensures sent { OnOk result
            (sent self.new ≡ added (sent self.old) (neighbour, datagram.now)) }
        ensures unsent { OnErr result (sent self.new ≡ sent self.old) }
        ensures cause { OnErr result (Rose (faults self.old) (faults self.new)) }
        ensures never_falls { faults self.old ≤ faults self.new };
}
