//! Where the output goes.

ghost use Rattle.std.specs.Prelude.{◌≤◌, ◌<◌, length, take, IfOk, MatchResult, OnErr};
ghost use Rattle.lk_devices.specs.Device.{SinkState, Appends, CountsRefusal, Keeps};

use crate::source::Failed;

/// A device that takes bytes. Contracts see its `state`: all that it took, where the device tells it, and how often a
/// call has failed or took nothing of some bytes.
pub trait Sink {
    ghost state: { Self → SinkState };

    /// Takes bytes from the front of `piece` and answers how many. To take none of some is a fault too. A call that
    /// fails took nothing.
    fn write(&mut self, piece: &[u8]) -> Result<usize, Failed>
        ensures within { IfOk result (λ n. n ≤ length piece.now) }
        ensures count { IfOk result (λ n. CountsRefusal n piece.now (state self.old).faults (state self.new).faults) }
        ensures failed { OnErr result ((state self.old).faults < (state self.new).faults) }
        ensures bytes { MatchResult result
            (λ n. Appends (state self.old).taken (state self.new).taken (take n piece.now))
            (λ _. Keeps (state self.old).taken (state self.new).taken) };
}
