ghost use Rattle.std.specs.Prelude.{◌≡◌, ℕ, ◌+◌, ◌≤◌, List, length, Option, Some, option_map, IfSome, OnOk};
ghost use Rattle.gs_io.specs.Causes.{HasCause};
ghost use Rattle.gs_stamp.specs.Disk.{Elapses, Follows, Torn, put};

use gs_io::Failed;

/// Eighteen bytes that are to outlive a crash. Contracts see what a read gives, where the store
/// tells it; what a crash may leave; and what a crash at some moment since an earlier one might have
/// left, so that they can speak of each moment within a call. A store of which nothing is known
/// tells no crash either.
pub trait Store {
    /// What a read gives, where it is told.
    ghost seen: { Self → Option (List ℕ) };

    /// What a crash at this moment may leave.
    ghost may_leave: { Self → List ℕ → Type 0 };

    /// The moment, as a number that does not fall.
    ghost moment: { Self → ℕ };

    /// What a crash at that moment or a later one might have left, during a call or between two.
    ghost left_since: { Self → ℕ → List ℕ → Type 0 };

    /// How often it has failed.
    ghost faults: { Self → ℕ };

    /// Reads all of it.
    fn read(&mut self, into: &mut [u8; 18]) -> Result<(), Failed>
        ensures bytes { OnOk result (IfSome (seen self.old) (λ bytes. into.new ≡ bytes)) }
        ensures seen { OnOk result (seen self.new ≡ seen self.old) }
        ensures crash { (c : List ℕ) → may_leave self.new c → may_leave self.old c }
        ensures time { Elapses (moment self.old) (moment self.new) (left_since self.old) (left_since self.new) (may_leave self.new) }
        ensures cause { HasCause (faults self.old) (faults self.new) result };

    /// Puts the piece at its place. From then on until a sync, whether this is Ok or not, a crash may
    /// leave any bytes there.
    fn write(&mut self, at: u32, piece: &[u8]) -> Result<(), Failed>
        requires { at + length piece.now ≤ 18 }
        ensures written { OnOk result (seen self.new ≡ option_map (put at piece.now) (seen self.old)) }
        ensures crash { Follows (Torn at (length piece.now)) (may_leave self.old) (may_leave self.new) }
        ensures time { Elapses (moment self.old) (moment self.new) (left_since self.old) (left_since self.new) (may_leave self.new) }
        ensures cause { HasCause (faults self.old) (faults self.new) result };

    /// After it a crash leaves what a read gives.
    fn sync(&mut self) -> Result<(), Failed>
        ensures durable { OnOk result ((c : List ℕ) → may_leave self.new c → seen self.old ≡ Some c) }
        ensures seen { OnOk result (seen self.new ≡ seen self.old) }
        ensures crash { (c : List ℕ) → may_leave self.new c → may_leave self.old c }
        ensures time { Elapses (moment self.old) (moment self.new) (left_since self.old) (left_since self.new) (may_leave self.new) }
        ensures cause { HasCause (faults self.old) (faults self.new) result };

    /// A crash leaves all of the bytes.
    ghost size: { (store : Self) (c : List ℕ) → may_leave store c → length c ≡ 18 };

    /// What a read gives, also after a failed call, is among what a crash may leave.
    ghost seen_may_stay: { (store : Self) (c : List ℕ) → seen store ≡ Some c → may_leave store c };

    /// This moment is one of those since an earlier one.
    ghost counts_now: { (store : Self) (t : ℕ) (c : List ℕ) → t ≤ moment store → may_leave store c → left_since store t c };

    /// Since this moment there is no other.
    ghost only_now: { (store : Self) (c : List ℕ) → left_since store (moment store) c → may_leave store c };
}
