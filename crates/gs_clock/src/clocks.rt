ghost use Rattle.std.specs.Prelude.{◌≡◌, ℕ, List, Option, IfOk, OnErr};
ghost use Rattle.gs_io.specs.Causes.{HasCause};
ghost use Rattle.gs_clock.specs.Readings.{Reads};

use gs_io::Failed;

/// A clock that is read. Its readings are clock units; those of a real clock are nanoseconds.
pub trait Clock: Drop {
    /// The readings that are to come, where it tells them. The last one comes again and again.
    ghost left: { Self → Option (List ℕ) };

    /// How often it has failed.
    ghost faults: { Self → ℕ };

    /// The next reading. A call that fails takes none.
    fn read(&mut self) -> Result<u64, Failed>
        ensures reading { IfOk result (λ n. Reads (left self.old) (left self.new) n) }
        ensures none_taken { OnErr result (left self.new ≡ left self.old) }
        ensures cause { HasCause (faults self.old) (faults self.new) result };
}
