// Where the output goes. A count of faults says when a write may fail.
ghost use Rattle.std.specs.Prelude.{◌≡◌, ◌<◌, ◌≤◌, IfOk, length};
ghost use Rattle.outside.specs.States.{SinkState};
ghost use Rattle.outside.specs.Written.{HasWriteCause, Writes};
ghost use Rattle.outside.specs.declared.sink.WriteFail.TheVariants.{OutOfMemory};

use std::alloc::{AllocError, AllocFailed};

/// Why a write took nothing.
#[derive(Clone, Copy, Debug, PartialEq, Eq)]
pub enum WriteFail {
    /// The host refused.
    Failed,
    OutOfMemory,
}

impl From<AllocError> for WriteFail {
    ghost from_gives = { λ _ e. e ≡ OutOfMemory };

    fn from(_: AllocError) -> Self {
        WriteFail::OutOfMemory
    }
}

impl<T: Drop> From<AllocFailed<T>> for WriteFail {
    ghost from_gives = { λ _ e. e ≡ OutOfMemory };

    fn from(_: AllocFailed<T>) -> Self {
        WriteFail::OutOfMemory
    }
}

/// Where output goes: the bytes written so far, where they are told, and a count of the host's failures, which never falls.
pub trait Sink {
    /// The bytes written so far, where they are told, and how often the host has failed, up to the greatest u64.
    ghost state: { Self → SinkState };

    /// Writes the front of a piece, at least a byte of it, and answers how many. An error writes nothing, and `Failed`
    /// comes only where the count of faults rose.
    fn write(&mut self, piece: &[u8]) -> Result<usize, WriteFail>
        requires { 0 < length piece.now }
        ensures some { IfOk result (λ n. 0 < n) }
        ensures within { IfOk result (λ n. n ≤ length piece.now) }
        ensures bytes { Writes (state self.old).written (state self.new).written piece.now result }
        ensures cause { HasWriteCause (state self.old).faults (state self.new).faults result };
}
