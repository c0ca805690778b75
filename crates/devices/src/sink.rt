//! What takes bytes.

ghost use Rattle.std.specs.Prelude.{ℕ, Bool, Option, List};
ghost use Rattle.std.specs.Io.{WritesAtMost};
ghost use Rattle.std.specs.Io.KnownBytes.{Keeps, WriteAppends};
ghost use Rattle.devices.specs.Calls.{ReportsFailure, TakesSome};

use crate::fault::DeviceFault;

/// What takes bytes.
pub trait Sink {
    /// The bytes that it holds, where they are known.
    ghost contents: { Self → Option (List ℕ) };

    /// Whether a call has failed.
    ghost has_failed: { Self → Bool };

    /// Takes some of the bytes, at least one where there are any, and answers how many.
    fn write(&mut self, bytes: &[u8]) -> Result<usize, DeviceFault>
        ensures bound { WritesAtMost result bytes.now }
        ensures some { TakesSome result bytes.now }
        ensures bytes { WriteAppends (contents self.old) (contents self.new) result bytes.now }
        ensures failure { ReportsFailure (has_failed self.old) (has_failed self.new) result };

    /// Passes on what the sink holds back.
    fn flush(&mut self) -> Result<(), DeviceFault>
        ensures bytes { Keeps (contents self.old) (contents self.new) }
        ensures failure { ReportsFailure (has_failed self.old) (has_failed self.new) result };
}
