ghost use Rattle.std.specs.Prelude.{ℕ, ◌<◌, ◌≤◌, List, Option, length, IfOk};
ghost use Rattle.std.specs.Io.{ReadsAtMost};
ghost use Rattle.std.specs.Io.KnownBytes.{ReadConsumes, WriteAppends};
ghost use Rattle.rdm_io.specs.Faults.{HasCause};

use std::alloc::AllocError;

/// Want of memory, the one answer that no clause gives a cause for.
pub type NoMemory = AllocError;

/// A read or a write that moved nothing, and that was counted as a fault.
#[derive(Clone, Copy, Debug, PartialEq, Eq)]
pub struct Failed;

/// Where bytes come from.
pub trait Source {
    /// What is left to read, where the source tells it.
    ghost left: { Self → Option (List ℕ) };

    /// How many calls failed, up to the last value of 64 bits.
    ghost faults: { Self → ℕ };

    /// Puts the next bytes at the front of `room` and says how many. 0 is the end of the input.
    fn read(&mut self, room: &mut [u8]) -> Result<usize, Failed>
        requires { 0 < length room.old }
        ensures bound { ReadsAtMost result room.new }
        ensures bytes { ReadConsumes (left self.old) (left self.new) result room.new }
        ensures cause { HasCause (faults self.old) (faults self.new) result };
}

/// Where bytes go to.
pub trait Sink {
    /// What was given, where the sink tells it.
    ghost given: { Self → Option (List ℕ) };

    /// How many calls failed, up to the last value of 64 bits.
    ghost faults: { Self → ℕ };

    /// Takes bytes from the front of `piece`, at least one, and says how many.
    fn write(&mut self, piece: &[u8]) -> Result<usize, Failed>
        requires { 0 < length piece.now }
        ensures some { IfOk result (λ n. 1 ≤ n) }
        ensures bound { IfOk result (λ n. n ≤ length piece.now) }
        ensures bytes { WriteAppends (given self.old) (given self.new) result piece.now }
        ensures cause { HasCause (faults self.old) (faults self.new) result };
}
