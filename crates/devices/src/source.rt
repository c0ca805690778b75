//! What gives bytes.

ghost use Rattle.std.specs.Prelude.{◌≡◌, ◌<◌, ◌||◌, ℕ, Bool, Option, List, length};
ghost use Rattle.std.specs.Io.{ReadsAtMost};
ghost use Rattle.std.specs.Io.KnownBytes.{ReadConsumes};
ghost use Rattle.devices.specs.Calls.{ReportsFailure, ReportsEnd};

use crate::fault::DeviceFault;

/// What gives bytes.
pub trait Source {
    /// The bytes that reads will give from here on, where they are known.
    ghost remaining: { Self → Option (List ℕ) };

    /// Whether a call has failed.
    ghost has_failed: { Self → Bool };

    /// Whether there was a call after one that had failed.
    ghost was_asked_again: { Self → Bool };

    /// Whether a call has given no byte, which says that there are no more.
    ghost gave_none: { Self → Bool };

    /// Reads some bytes into the front of the buffer, which has room for one, and answers how many:
    /// 0 only at the end.
    fn read(&mut self, buffer: &mut [u8]) -> Result<usize, DeviceFault>
        requires some { 0 < length buffer.old }
        ensures again { was_asked_again self.new ≡ was_asked_again self.old || has_failed self.old }
        ensures bound { ReadsAtMost result buffer.new }
        ensures bytes { ReadConsumes (remaining self.old) (remaining self.new) result buffer.new }
        ensures failure { ReportsFailure (has_failed self.old) (has_failed self.new) result }
        ensures end { ReportsEnd (gave_none self.old) (gave_none self.new) result };
}
