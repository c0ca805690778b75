//! One segment of a satellite.

ghost use Rattle.std.specs.Prelude.{◌≡◌, ◌≤◌, ◌<◌, ◌+◌, ◌-◌, ◌*◌};
ghost use Rattle.channels.specs.declared.follower.TheConstants.{LEAST_STEP, MOST_STEP, MOST_TAKEN};
ghost use Rattle.oscillators.specs.declared.settings.TheConstants.{MOST_SHIFT, MOST_CORRECTION};
ghost use Rattle.tracking_loops.specs.declared.limits.TheConstants.{MOST_SUM};
ghost use Rattle.definitions.specs.Oscillators.{code_cycle};
ghost use Rattle.channels.specs.Sizes.{GrowWith};

use crate::shift::shift_of;
use crate::window::Window;
use acquisition::Signal;
use ca_codes::{CodeBook, Prn};
use lane_correlator::{Counts, replica_sums};
use oscillators::{CarrierOsc, CodeOsc, MOST_CORRECTION, MOST_SHIFT, Settings};

/// The least step of a code, in 2^-32 chip a sample: below that of any settings.
const LEAST_STEP: u32 = 200_000_000;

/// The most of such a step: above that of any settings.
const MOST_STEP: u32 = 3_000_000_000;

/// Far more samples than a recording has, so that a sum of a few of their numbers fits in 64 bits.
pub const MOST_TAKEN: u64 = 1 << 62;

/// The open segment of a channel: the satellite, the code and the carrier at sample `at`, and the
/// sums so far. The samples after these wait, none of which ends the segment. It stands for the
/// channel and all samples, those that wait with them.
#[derive(Debug, Drop)]
pub struct Follower {
    prn: Prn,
    code: CodeOsc,
    carrier: CarrierOsc,
    sums: Counts,
    /// How many samples of the recording it has taken.
    at: u64,
    /// With how many of them the segment ends.
    ends: u64,
    ghost early: { at ≤ MOST_TAKEN },
    ghost waits: { at < ends },
    ghost in_cycle: { code.phase < code_cycle },
    ghost moves: { LEAST_STEP ≤ code.step },
    ghost slow: { code.step ≤ MOST_STEP },
    ghost small: { GrowWith sums code.step code.phase },
    ghost before: { code.phase + (ends - at - 1) * code.step < code_cycle },
    ghost through: { code_cycle ≤ code.phase + (ends - at) * code.step },
}

impl Follower {
    ghost use Rattle.std.specs.Prelude.{List, ◌++◌, length, IfSome, IsSome, IsNone, ◌↔◌};
    ghost use Rattle.std.specs.Prelude.{unsigned_abs};
    ghost use Rattle.definitions.specs.Samples.{Sample};
    ghost use Rattle.definitions.specs.Oscillators.{Settings as DefinedSettings};
    ghost use Rattle.definitions.specs.Segments.{Channel, counts_of, progress};
    ghost use Rattle.lane_correlator.specs.Counting.{counts_in, AreWithin};
    ghost use Rattle.channels.specs.Following.{Follows, Opens, Goes};
    ghost use Rattle.channels.specs.Following.{BeginsAfter, prn_of, at_of, ends_of, chance};
    ghost use Rattle.channels.specs.Windows.{IsOver, first_of, unpacked_of};

    /// Begins at the next sample, which is number `time`, with the carrier at 0. The code was at a
    /// half chip of its cycle `ago` samples before that one, and has gone on since at this Doppler
    /// shift, as it does from here on.
    #[inline(always)]
    pub fn start(settings: &Settings, signal: Signal, time: u64, ago: u64) -> Follower
        requires { time ≤ MOST_TAKEN }
        ensures follows { (channel : Channel) (xs : List Sample) → length xs ≡ time
            → BeginsAfter settings.now signal.prn signal.doppler signal.half ago time channel
            → Follows settings.now channel xs result }
        ensures at { at_of result ≡ time }
    {
        let v = shift_of(signal.doppler);
        let mut code = CodeOsc::new(signal.half, settings.code_step(v, 0));
        code.jump(ago);
        Follower {
            prn: signal.prn,
            at: time,
            ends: time + code.to_wrap(),
            code,
            carrier: CarrierOsc::new(settings.carrier_step(v)),
            sums: Counts::NONE,
        }
    }

    /// The satellite that it follows.
    pub fn prn(&self) -> Prn
        ensures { result ≡ prn_of self.now }
    {
        self.prn
    }

    /// With how many samples of the recording the segment ends: those before may wait.
    pub fn ends(&self) -> u64
        ensures value { result ≡ ends_of self.now }
        ensures waits { (settings : DefinedSettings) (channel : Channel) (xs ys : List Sample)
            → Follows settings channel xs self.now → length (xs ++ ys) < result
            → Follows settings channel (xs ++ ys) self.now
            × (progress settings channel (xs ++ ys) ≡ progress settings channel xs) }
    {
        self.ends
    }

    /// Takes the samples of a window up to number `to`, which isn't after the segment's end. It
    /// answers the segment's sums if it ends there. The book is any book of codes.
    pub fn take(&mut self, to: u64, window: &Window, book: &mut CodeBook) -> Option<Counts>
        requires begun { at_of self.old ≤ to }
        requires ends { to ≤ ends_of self.old }
        requires early { to ≤ MOST_TAKEN }
        requires open { first_of window.now ≤ at_of self.old }
        requires unpacked { to ≤ unpacked_of window.now }
        ensures at { at_of self.new ≡ to }
        ensures came { IsSome result ↔ (ends_of self.old ≤ to) }
        ensures goes { (settings : DefinedSettings) (channel : Channel) (xs ys : List Sample)
            → length (xs ++ ys) ≡ to → IsOver (xs ++ ys) window.now
            → Follows settings channel xs self.old
            → Goes settings channel xs ys result self.new }
        ensures waits { IsNone result → ends_of self.new ≡ ends_of self.old }
        ensures chance { IfSome result (λ _. chance self.new + 1 ≤ chance self.old) }
        ensures small { IfSome result (λ c. AreWithin MOST_SUM (counts_in c)) }
    {
        let from = window.place(self.at);
        let len = (to - self.at) as usize;
        let more = replica_sums(
            window.planes(),
            from,
            len,
            &self.carrier,
            &self.code,
            book,
            self.prn,
        );
        let sums = self.sums.add(&more);
        self.code.advance(len as u64);
        self.carrier.advance(len as u64);
        self.at = to;
        if to < self.ends {
            self.sums = sums;
            return None;
        }
        self.sums = Counts::NONE;
        self.ends = to + self.code.to_wrap();
        Some(sums)
    }

    /// Goes on with the steps of a Doppler shift `v`, in 1/65536 Hz, and of a correction `w` of the
    /// code's rate, in 1/65536 chip a second, where a segment has just been opened. Its sums begin
    /// at 0.
    pub fn steer(&mut self, settings: &Settings, v: i64, w: i64)
        requires shift { unsigned_abs v ≤ MOST_SHIFT }
        requires correction { unsigned_abs w ≤ MOST_CORRECTION }
        ensures follows { (channel : Channel) (xs : List Sample)
            → Opens settings.now channel xs self.old
            → channel.steering (counts_of (progress settings.now channel xs).dumps)
            ≡ record { v = v; w = w } → Follows settings.now channel xs self.new }
        ensures chance { chance self.new ≡ chance self.old }
        ensures prn { prn_of self.new ≡ prn_of self.old }
        ensures at { at_of self.new ≡ at_of self.old }
    {
        prove!(
            v.unsigned_abs() <= u64::from(MOST_SHIFT),
            "Follower::steer requires |v| <= MOST_SHIFT"
        );
        prove!(
            w.unsigned_abs() <= u64::from(MOST_CORRECTION),
            "Follower::steer requires |w| <= MOST_CORRECTION"
        );
        self.code.set_step(settings.code_step(v, w));
        self.carrier.set_step(settings.carrier_step(v));
        self.sums = Counts::NONE;
        self.ends = self.at + self.code.to_wrap();
    }
}
