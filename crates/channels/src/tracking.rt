//! The loops that steer a satellite, and its message while they are locked.

ghost use Rattle.std.specs.Prelude.{◌≡◌, ◌≤◌, ◌<◌, ◌+◌, unsigned_abs};
ghost use Rattle.tracking_loops.specs.Standing as loops_stand;
ghost use Rattle.channels.specs.LockedMessages.{bit_count};
ghost use Rattle.tracking_loops.specs.declared.limits.TheConstants.{MOST_STEERED_DUMPS, MOST_SUM};
ghost use Rattle.oscillators.specs.declared.settings.TheConstants.{MOST_SHIFT, MOST_CORRECTION};
ghost use Rattle.lane_correlator.specs.Counting.{counts_in, AreWithin};

use crate::dump::Dump;
use crate::locked_message::LockedMessage;
use lane_correlator::Counts;
use oscillators::Settings;
use tracking_loops::Loops;

/// The loops of a satellite, which its dumps go to, and its message, which is read while they are
/// locked. It stands for the sums of these dumps, and for the shift at which the loops began.
#[derive(Debug, Drop)]
pub struct Tracking {
    settings: Settings,
    loops: Loops,
    message: LockedMessage,
    ghost few_bits: { bit_count message ≤ loops_stand.dump_count loops },
}

impl Tracking {
    ghost use Rattle.std.specs.Prelude.{ℤ, List, [], ◌∷◌, ◌++◌};
    ghost use Rattle.definitions.specs.Oscillators.{Settings as DefinedSettings};
    ghost use Rattle.definitions.specs.Correlation.{Counts as DefinedCounts};
    ghost use Rattle.definitions.specs.BitEdge.{has_edge};
    ghost use Rattle.definitions.specs.Events.{pushes_of};
    ghost use Rattle.definitions.specs.Lock.{is_locked};
    ghost use Rattle.definitions.specs.Loops.{shift_after};
    ghost use Rattle.channels.specs.Trackings.{StandsFor, Tells, dump_count, settings_of};

    /// Loops that begin at a Doppler shift, in 1/65536 Hz, before the first dump.
    pub fn start(settings: &Settings, v: i64) -> Tracking
        requires { unsigned_abs v ≤ MOST_SHIFT }
        ensures stands { StandsFor settings.now v [] result }
        ensures dumps { dump_count result ≡ 0 }
    {
        Tracking {
            settings: *settings,
            loops: Loops::start(v),
            message: LockedMessage::new(),
        }
    }

    /// Takes the sums of the next dump, each at most `MOST_SUM` in size, and makes `dump` them and
    /// what they bring.
    pub fn take(&mut self, counts: Counts, dump: &mut Dump)
        requires small { AreWithin MOST_SUM (counts_in counts) }
        requires few { dump_count self.old < MOST_STEERED_DUMPS }
        ensures dumps { dump_count self.new ≡ dump_count self.old + 1 }
        ensures counts { dump.new.counts ≡ counts }
        ensures stands { (settings : DefinedSettings) (v : ℤ) (dumps : List DefinedCounts)
            → StandsFor settings v dumps self.old
            → StandsFor settings v (dumps ++ counts_in counts ∷ []) self.new }
        ensures tells { (settings : DefinedSettings) (v : ℤ) (dumps : List DefinedCounts)
            → StandsFor settings v dumps self.old
            → Tells (dumps ++ counts_in counts ∷ []) dump.new }
    {
        dump.counts = counts;
        dump.lock = self.loops.take(counts);
        self.message
            .take(&counts, self.loops.locked(), &mut dump.message);
    }

    /// What is known of the recording.
    pub fn settings(&self) -> &Settings
        ensures { result.now ≡ settings_of self.now }
    {
        &self.settings
    }

    /// The carrier's Doppler shift from the last dump on, in 1/65536 Hz.
    pub fn v(&self) -> i64
        ensures small { unsigned_abs result ≤ MOST_SHIFT }
        ensures is { (settings : DefinedSettings) (v : ℤ) (dumps : List DefinedCounts)
            → StandsFor settings v dumps self.now → result ≡ (shift_after v dumps).v }
    {
        self.loops.v()
    }

    /// The correction of the code's rate at which it goes on, in 1/65536 chip a second.
    pub fn w(&self) -> i64
        ensures small { unsigned_abs result ≤ MOST_CORRECTION }
        ensures is { (settings : DefinedSettings) (v : ℤ) (dumps : List DefinedCounts)
            → StandsFor settings v dumps self.now → result ≡ (shift_after v dumps).w }
    {
        self.loops.w()
    }

    /// Whether the loops are locked to the signal.
    pub fn is_locked(&self) -> bool
        ensures { (settings : DefinedSettings) (v : ℤ) (dumps : List DefinedCounts)
            → StandsFor settings v dumps self.now → result ≡ is_locked dumps }
    {
        self.loops.locked()
    }

    /// Whether the edge of the data bits is found since the last lock.
    pub fn has_edge(&self) -> bool
        ensures { (settings : DefinedSettings) (v : ℤ) (dumps : List DefinedCounts)
            → StandsFor settings v dumps self.now → result ≡ has_edge (pushes_of dumps) }
    {
        self.message.has_edge()
    }
}
