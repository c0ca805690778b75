//! The samples that the satellites of a bank look at.

ghost use Rattle.std.specs.Prelude.{◌≡◌, ◌≤◌, ◌+◌, ◌-◌, length};
ghost use Rattle.channels.specs.OpenSamples.{IsOpen};
ghost use Rattle.sample_history.specs.Histories.{packing_in, room_of};
ghost use Rattle.sample_planes.specs.Packings.{packing_of};
ghost use Rattle.sample_planes.specs.declared.planes.TheConstants.{MAX_SAMPLES};
ghost use Rattle.sample_planes.specs.declared.planes.TheConstants.{MOST_TIME};

use crate::dump::Dump;
use lane_correlator::Counts;
use sample_history::SampleHistory;
use sample_planes::{Format, MAX_SAMPLES, NEAR_BYTES, PackedSamples, Planes, SampleSource};
use std::alloc::{AllocError, Global};

/// The last samples of a recording, of which at most `MAX_SAMPLES` are open: these are unpacked
/// once for all satellites that take them, and only where one does. A satellite may let the open
/// ones wait. Beside them is room for a dump.
#[derive(Drop)]
pub struct Window {
    history: SampleHistory,
    /// The open samples, as far as they are unpacked. They are large, so that they are kept.
    planes: Planes,
    /// Room for the bytes that they are unpacked from.
    near: [u8; NEAR_BYTES],
    /// The number of the first open sample.
    first: u64,
    /// The number after that of the last one that is unpacked.
    unpacked: u64,
    /// The dump that came last. It is large, so that it is written here.
    pub(crate) dump: Dump,
    ghost open: { IsOpen history first unpacked },
    ghost filled: { unpacked ≤ first + length planes },
}

impl Window {
    ghost use Rattle.std.specs.Prelude.{List, [], ◌++◌, IfOk, nat_le};
    ghost use Rattle.definitions.specs.Samples.{Sample};
    ghost use Rattle.channels.specs.Windows.{StandsFor, IsSame, first_of, end_of, unpacked_of};
    ghost use Rattle.channels.specs.Windows.{history_of, planes_of, dump_of};

    /// Before the first sample of a recording. It takes its memory at once, and will hold at least
    /// the last `room` samples, which are `MAX_SAMPLES` or more.
    pub fn new(alloc: Global, format: Format, room: usize) -> Result<Window, AllocError>
        requires { MAX_SAMPLES ≤ room }
        ensures stands { IfOk result (λ window. StandsFor [] window) }
        ensures packing { IfOk result (λ w. packing_in (history_of w) ≡ packing_of format) }
        ensures room { IfOk result (λ window. room ≤ room_of (history_of window)) }
        ensures first { IfOk result (λ window. first_of window ≡ 0) }
        ensures end { IfOk result (λ window. end_of window ≡ 0) }
    {
        prove!(
            MAX_SAMPLES <= room,
            "Window::new requires MAX_SAMPLES <= room"
        );
        Ok(Window {
            history: SampleHistory::open(alloc, format, room)?,
            planes: Planes::new(),
            near: [0; NEAR_BYTES],
            first: 0,
            unpacked: 0,
            dump: Dump::plain(Counts::NONE),
        })
    }

    /// All samples that are held, by their numbers.
    pub fn history(&self) -> &SampleHistory
        ensures { result.now ≡ history_of self.now }
    {
        &self.history
    }

    /// The number after that of the last sample.
    pub fn end(&self) -> u64
        ensures { result ≡ end_of self.now }
    {
        self.history.end()
    }

    /// The dump that came last, or one that is zero before the first.
    pub fn dump(&self) -> &Dump
        ensures { result.now ≡ dump_of self.now }
    {
        &self.dump
    }

    /// Whether so many more samples can be open.
    pub fn has_room(&self, more: usize) -> bool
        ensures { result ≡ nat_le more (MAX_SAMPLES - (end_of self.now - first_of self.now)) }
    {
        more <= MAX_SAMPLES - (self.end() - self.first) as usize
    }

    /// Closes the samples that are open.
    pub fn close(&mut self)
        ensures first { first_of self.new ≡ end_of self.old }
        ensures history { history_of self.new ≡ history_of self.old }
        ensures dump { dump_of self.new ≡ dump_of self.old }
        ensures stands { (xs : List Sample) → StandsFor xs self.old → StandsFor xs self.new }
    {
        self.first = self.end();
        self.unpacked = self.first;
    }

    /// Opens the next samples of the recording, for which there is room.
    pub fn take(&mut self, run: &PackedSamples)
        requires packing { run.now.packing ≡ packing_in (history_of self.old) }
        requires room { end_of self.old - first_of self.old + length run.now.samples
            ≤ MAX_SAMPLES }
        requires few { end_of self.old + length run.now.samples ≤ MOST_TIME }
        ensures stands { (xs : List Sample) → StandsFor xs self.old
            → StandsFor (xs ++ run.now.samples) self.new }
        ensures first { first_of self.new ≡ first_of self.old }
        ensures end { end_of self.new ≡ end_of self.old + length run.now.samples }
        ensures packing { packing_in (history_of self.new) ≡ packing_in (history_of self.old) }
        ensures room { room_of (history_of self.new) ≡ room_of (history_of self.old) }
        ensures dump { dump_of self.new ≡ dump_of self.old }
    {
        prove!(self.history.end() - self.first <= (MAX_SAMPLES - run.len()) as u64);
        self.history.take(run);
    }

    /// Unpacks the open samples, where they aren't yet.
    pub fn unpack(&mut self)
        ensures all { unpacked_of self.new ≡ end_of self.old }
        ensures same { IsSame self.old self.new }
        ensures dump { dump_of self.new ≡ dump_of self.old }
    {
        if self.unpacked < self.end() {
            self.unpacked = self.end();
            let len = (self.unpacked - self.first) as usize;
            self.history
                .unpack_into(self.first, len, &mut self.near, &mut self.planes);
        }
    }

    /// The open samples, once they are unpacked.
    pub fn planes(&self) -> &Planes
        ensures { result.now ≡ planes_of self.now }
    {
        &self.planes
    }

    /// The place of an open sample, by its number, among those that are unpacked.
    pub fn place(&self, number: u64) -> usize
        requires open { first_of self.now ≤ number }
        requires taken { number ≤ end_of self.now }
        ensures place { first_of self.now + result ≡ number }
        ensures within { result ≤ MAX_SAMPLES }
    {
        (number - self.first) as usize
    }
}
