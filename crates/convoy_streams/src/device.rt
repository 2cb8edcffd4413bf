ghost use Rattle.std.specs.Prelude.{◌<◌, ◌≤◌, length, IfOk};
ghost use Rattle.std.specs.Io.{ReadsAtMost};
ghost use Rattle.convoy_streams.specs.Devices.{Answer, read_answer, write_answer};

use thiserror::Error;

/// A device could not be read from or written to.
#[derive(Clone, Copy, Debug, PartialEq, Eq, Error)]
#[error("a device could not be read from or written to")]
pub struct DeviceFailed;

/// Where a text is read from. An implementation says by `reads` what one call may do: from
/// which state, with which answer, to which state. A run of calls is a list of such answers, and the
/// device failed as often as the list has failures.
pub trait Source {
    ghost reads: { Self → Answer → Self → Type 0 };

    /// Puts the next bytes at the front of the buffer and answers how many they are. None are the
    /// end of the input.
    fn read(&mut self, buffer: &mut [u8]) -> Result<usize, DeviceFailed>
        requires { 0 < length buffer.old }
        ensures within { ReadsAtMost result buffer.new }
        ensures answer { reads self.old (read_answer buffer.new result) self.new };
}

/// Where a text is written to. `writes` says what one call may do, as `reads` does of a
/// [`Source`].
pub trait Sink {
    ghost writes: { Self → Answer → Self → Type 0 };

    /// Takes bytes from the front of those offered and answers how many. A call that takes none
    /// counts as one that failed.
    fn write(&mut self, bytes: &[u8]) -> Result<usize, DeviceFailed>
        requires { 0 < length bytes.now }
        ensures within { IfOk result (λ count. count ≤ length bytes.now) }
        ensures answer { writes self.old (write_answer bytes.now result) self.new };
}
