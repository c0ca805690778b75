//! The last samples of a stream.

ghost use Rattle.std.specs.Prelude.{◌≡◌, ◌+◌, ◌-◌, ◌*◌, ◌/◌, ◌<◌, ◌≤◌, ℕ, length, min};
ghost use Rattle.std.specs.Prelude.{slice_index};
ghost use Rattle.definitions.specs.Samples.{sample_count, samples_per_byte};
ghost use Rattle.sample_planes.specs.Packings.{packing_of};
ghost use Rattle.sample_planes.specs.declared.planes.TheConstants.{MAX_SAMPLES};
ghost use Rattle.sample_planes.specs.declared.planes.TheConstants.{MOST_TIME};

use crate::ring_bytes::{copy_out, grow};
use circular_buffer::HeapCircularBuffer;
use sample_planes::{
    Format, MAX_SAMPLES, MOST_TIME, NEAR_BYTES, PackedSamples, Planes, SampleSource,
};
use std::alloc::{AllocError, Global};

/// The last samples of a stream, packed. The earliest sample of a byte stands in its top bits.
#[derive(Drop)]
pub struct SampleHistory {
    format: Format,
    /// The last whole bytes of the stream.
    whole: HeapCircularBuffer<u8>,
    /// The samples after those of the whole bytes, fewer than a byte holds.
    partial: u8,
    taken: u64,
    ghost few: { taken ≤ MOST_TIME },
    ghost kept: { length whole.items
        ≡ min whole.capacity (taken / samples_per_byte (packing_of format)) },
}

impl SampleHistory {
    ghost use Rattle.std.specs.Prelude.{List, [], ◌++◌, IfOk};
    ghost use Rattle.definitions.specs.Samples.{Sample, samples_from};
    ghost use Rattle.sample_history.specs.Histories.{StandsFor, packing_in, room_of, taken_of};
    ghost use Rattle.sample_history.specs.Histories.{first_of, bytes_of};

    /// The history of a stream that hasn't begun. It takes its memory at once, and will hold at
    /// least the last `room` samples. An error is memory that it was refused.
    pub fn open(alloc: Global, format: Format, room: usize) -> Result<SampleHistory, AllocError>
        ensures stands { IfOk result (λ history. StandsFor [] history) }
        ensures packing { IfOk result (λ history. packing_in history ≡ packing_of format) }
        ensures room { IfOk result (λ history. room ≤ room_of history) }
        ensures taken { IfOk result (λ history. taken_of history ≡ 0) }
    {
        let whole = HeapCircularBuffer::with_capacity(alloc, room.div_ceil(format.per_byte()) + 1)?;
        Ok(SampleHistory {
            format,
            whole,
            partial: 0,
            taken: 0,
        })
    }

    /// How the samples are packed.
    pub fn format(&self) -> Format
        ensures { packing_of result ≡ packing_in self.now }
    {
        self.format
    }

    /// Takes the next samples of the stream, at most `MAX_SAMPLES`, in the history's packing.
    pub fn take(&mut self, run: &PackedSamples)
        requires packing { run.now.packing ≡ packing_in self.old }
        requires short { length run.now.samples ≤ MAX_SAMPLES }
        requires few { taken_of self.old + length run.now.samples ≤ MOST_TIME }
        ensures stands { (xs : List Sample) → StandsFor xs self.old
            → StandsFor (xs ++ run.now.samples) self.new }
        ensures packing { packing_in self.new ≡ packing_in self.old }
        ensures room { room_of self.new ≡ room_of self.old }
        ensures taken { taken_of self.new ≡ taken_of self.old + length run.now.samples }
        ensures kept { first_of self.new ≤ taken_of self.new - room_of self.new }
    {
        prove!(run.format() == self.format);
        prove!(run.len() <= MAX_SAMPLES);
        prove!(self.taken <= MOST_TIME - run.len() as u64);
        let (bytes, first) = run.place();
        self.take_bytes(bytes, first, run.len());
    }

    /// Takes the `len` samples of `bytes` from sample `first` of the first byte on, as `take` does.
    fn take_bytes(&mut self, bytes: &[u8], first: usize, len: usize)
        requires first { first < samples_per_byte (packing_in self.old) }
        requires within { first + len ≤ sample_count (packing_in self.old) bytes.now }
        requires short { len ≤ MAX_SAMPLES }
        requires few { taken_of self.old + len ≤ MOST_TIME }
        ensures stands { (xs : List Sample) → StandsFor xs self.old
            → StandsFor (xs ++ samples_from (packing_in self.old) bytes.now first len) self.new }
        ensures packing { packing_in self.new ≡ packing_in self.old }
        ensures room { room_of self.new ≡ room_of self.old }
        ensures taken { taken_of self.new ≡ taken_of self.old + len }
        ensures kept { first_of self.new ≤ taken_of self.new - room_of self.new }
    {
        let per_byte = self.format.per_byte();
        let width = 8 / per_byte;
        let filled = (self.taken % per_byte as u64) as usize;
        self.partial = grow(
            &mut self.whole,
            self.partial,
            width * filled,
            bytes,
            width * first,
            (filled + len) / per_byte,
        );
        self.taken += len as u64;
    }

    /// Puts `count` of its bytes, from byte `from` of the ring on, at the start of `near`. The byte
    /// that isn't full comes after those of the ring.
    fn put_bytes(&self, from: usize, count: usize, near: &mut [u8])
        requires from { from ≤ length self.now.whole.items }
        requires within { from + count ≤ length self.now.whole.items + 1 }
        requires short { count ≤ length near.old }
        ensures bytes { (k : ℕ) → k < count
            → slice_index near.new k ≡ slice_index (bytes_of self.now) (from + k) }
        ensures long { length near.new ≡ length near.old }
    {
        let inside = count.min(self.whole.len() - from);
        copy_out(&self.whole, from, &mut near[..inside]);
        if inside < count {
            near[inside] = self.partial;
        }
    }
}

impl SampleSource for SampleHistory {
    ghost use Rattle.sample_history.specs.Histories.{first_of, taken_of, held_in};

    ghost from = { first_of };

    ghost to = { taken_of };

    ghost held = { held_in };

    fn first(&self) -> u64 {
        let per_byte = self.format.per_byte() as u64;
        (self.taken / per_byte - self.whole.len() as u64) * per_byte
    }

    fn end(&self) -> u64 {
        self.taken
    }

    fn unpack_into(&self, n: u64, len: usize, near: &mut [u8; NEAR_BYTES], planes: &mut Planes) {
        let per_byte = self.format.per_byte();
        let width = 8 / per_byte;
        let place = (n - self.first()) as usize;
        let start = place % per_byte;
        let count = (width * (start + len) + 7) / 8;
        self.put_bytes(place / per_byte, count, near);
        planes.fill(self.format, near, start, len);
    }
}
