//! Where the input comes from.

ghost use Rattle.std.specs.Prelude.{◌≤◌, length, IfOk, IfSome};
ghost use Rattle.lk_devices.specs.Device.{SourceState, HasCause, ReadsFrom};

/// A call of a device that failed. It raised the device's count of faults.
#[derive(Clone, Copy, Debug, PartialEq, Eq)]
pub struct Failed;

/// A device that gives bytes. Contracts see its `state`: the bytes that reads will give from here on, where the device
/// tells them, and how often a call has failed.
pub trait Source {
    ghost state: { Self → SourceState };

    /// Reads bytes into the front of `buf` and answers how many. It may be fewer than there is room for; 0 where
    /// there is room means that the end is reached. Refuses only with a fault, which the count shows.
    fn read(&mut self, buf: &mut [u8]) -> Result<usize, Failed>
        ensures within { IfOk result (λ n. n ≤ length buf.old) }
        ensures cause { HasCause result (state self.old).faults (state self.new).faults }
        ensures bytes { IfOk result (λ n. IfSome (state self.old).left (λ held. ReadsFrom held (state self.new).left buf.new n)) };
}
