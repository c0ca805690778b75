//! The readers and the writers of std.

ghost use Rattle.std.specs.Prelude.{◌≡◌, false};
ghost use Rattle.devices.specs.Reports.{without_calls};

use crate::fault::DeviceFault;
use crate::flags::{Flags, of_write, report};
use crate::sink::Sink;
use crate::source::Source;
use std::io::{Read, Write};

/// A reader or a writer of std, each call of which is one call of it. No error is tried again.
#[derive(Drop)]
pub struct Plain<T> {
    /// The reader or the writer.
    pub inner: T,
    flags: Flags,
    gave_none: bool,
}

impl<T> Plain<T> {
    /// A device of std, on which no call has failed yet.
    pub fn new(inner: T) -> Self
        ensures inner { result.inner ≡ inner }
        ensures flags { result.flags ≡ without_calls }
        ensures gave_none { result.gave_none ≡ false }
    {
        Plain {
            inner,
            flags: Flags::without_calls(),
            gave_none: false,
        }
    }
}

impl<R: Read> Source for Plain<R> {
    ghost remaining = { λ device. R.remaining device.inner };

    ghost has_failed = { λ device. device.flags.has_failed };

    ghost was_asked_again = { λ device. device.flags.was_asked_again };

    ghost gave_none = { λ device. device.gave_none };

    fn read(&mut self, buffer: &mut [u8]) -> Result<usize, DeviceFault> {
        let (answer, flags) = report(self.inner.read(buffer), self.flags);
        self.flags = flags;
        self.gave_none |= answer == Ok(0);
        answer
    }
}

impl<W: Write> Sink for Plain<W> {
    ghost contents = { λ device. W.contents device.inner };

    ghost has_failed = { λ device. device.flags.has_failed };

    fn write(&mut self, bytes: &[u8]) -> Result<usize, DeviceFault> {
        let answer = of_write(self.inner.write(bytes), bytes);
        let (answer, flags) = report(answer, self.flags);
        self.flags = flags;
        answer
    }

    fn flush(&mut self) -> Result<(), DeviceFault> {
        let (answer, flags) = report(self.inner.flush(), self.flags);
        self.flags = flags;
        answer
    }
}
