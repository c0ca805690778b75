//! A writer with the text that is held back for it, until the buffer is full or a run is about to
//! wait.

ghost use Rattle.std.specs.Prelude.{◌≤◌, length};

use arrayvec::ArrayVec;
use devices::{DeviceFault, Sink};

/// The most bytes that are held back.
pub const MOST_HELD: usize = 16_384;

/// A writer with the text that is held back for it.
#[derive(Drop)]
pub struct Output<'a, W> {
    writer: &'a mut W,
    bytes: ArrayVec<u8, MOST_HELD>,
    /// How many of the bytes the writer has taken already.
    sent: usize,
    ghost within: { sent ≤ length bytes.items },
}

impl<'a, W: Sink> Output<'a, W> {
    ghost use Rattle.std.specs.Prelude.{◌≡◌, [], OnOk};
    ghost use Rattle.std.specs.Io.KnownBytes.{Keeps};
    ghost use Rattle.receiver.specs.Outputs.{held, promised, Puts, Writes};
    ghost use Rattle.printed_lines.specs.declared.words.TheConstants.{LINE_BYTES};

    /// An output that holds nothing back.
    pub fn new(writer: &'a mut W) -> Self
        ensures same { result.writer.ghost_name ≡ writer.entry.ghost_name }
        ensures value { result.writer.now ≡ writer.old }
        ensures none { held result ≡ [] }
    {
        Output {
            writer,
            bytes: ArrayVec::new(),
            sent: 0,
        }
    }

    /// Holds a line back, and first writes what there was where there is no room for the line.
    pub fn put(&mut self, line: &[u8]) -> Result<(), DeviceFault>
        requires short { length line.now ≤ LINE_BYTES }
        ensures puts { Puts (promised W.Sink self.old) (promised W.Sink self.new) line.now result }
        ensures writes { Writes W.Sink self.old self.new result }
    {
        if self.bytes.remaining_capacity() < line.len() {
            self.send()?;
        }
        let _fits = self.bytes.try_extend_from_slice(line);
        Ok(())
    }

    /// Writes all that is held back, by as many writes as it takes. No failed write is tried again.
    pub fn send(&mut self) -> Result<(), DeviceFault>
        ensures none { OnOk result (self.new.bytes.items ≡ []) }
        ensures kept { Keeps (promised W.Sink self.old) (promised W.Sink self.new) }
        ensures writes { Writes W.Sink self.old self.new result }
    {
        while self.sent < self.bytes.len() {
            let count = self.writer.write(&self.bytes[self.sent..])?;
            self.sent += count;
        }
        self.bytes.clear();
        self.sent = 0;
        Ok(())
    }

    /// Writes all that is held back, and flushes.
    pub fn finish(&mut self) -> Result<(), DeviceFault>
        ensures none { OnOk result (held self.new ≡ []) }
        ensures kept { Keeps (promised W.Sink self.old) (promised W.Sink self.new) }
        ensures writes { Writes W.Sink self.old self.new result }
    {
        self.send()?;
        self.writer.flush()
    }
}
