//! The loops of a tracking channel.

ghost use Rattle.std.specs.Prelude.{◌≡◌, ◌≤◌, ◌<◌, ◌+◌, ℤ, List, [], ◌∷◌, ◌++◌, length};
ghost use Rattle.std.specs.Prelude.{unsigned_abs};
ghost use Rattle.definitions.specs.Correlation.{Counts as DefinedCounts};
ghost use Rattle.definitions.specs.Loops.{loops_after};
ghost use Rattle.definitions.specs.Lock.{is_locked, news_of};
ghost use Rattle.lane_correlator.specs.Counting.{counts_in, AreWithin};
ghost use Rattle.tracking_loops.specs.NewsIn.{news_in};
ghost use Rattle.tracking_loops.specs.declared.limits.TheConstants.{MOST_SUM};
ghost use Rattle.tracking_loops.specs.declared.limits.TheConstants.{MOST_STEERED_DUMPS};
ghost use Rattle.oscillators.specs.declared.settings.TheConstants.{MOST_SHIFT, MOST_CORRECTION};

use crate::limits::{MOST_STEERED_DUMPS, MOST_SUM};
use crate::lock::Lock;
use crate::news::News;
use crate::steering::{FIRST_HOLDING, Steering};
use lane_correlator::Counts;
use oscillators::MOST_SHIFT;

/// The loops of one tracking channel, from its first dump on. (This project's own.)
///
/// Dumps, numbered from 1, come about once a code period (1 ms). Up to dump 199 the turn of the
/// carrier between two dumps pulls the frequency in, and from dump 200 on the phase is held. From
/// there on each 20 dumps are a window, which is good where the sizes of the prompt sums in phase
/// add up to at least twice those in quadrature; a window whose sums are all 0 is good.
#[derive(Debug, Drop)]
pub struct Loops {
    steering: Steering,
    lock: Lock,
}

impl Loops {
    ghost use Rattle.tracking_loops.specs.Standing.{StandsFor, dump_count};

    /// Begins with the carrier's shift `v`, in 1/65536 Hz, at most `MOST_SHIFT` in size, and no
    /// dumps.
    pub fn start(v: i64) -> Self
        requires { unsigned_abs v ≤ MOST_SHIFT }
        ensures stands { StandsFor v [] result }
        ensures none { dump_count result ≡ 0 }
    {
        prove!(
            v.unsigned_abs() <= u64::from(MOST_SHIFT),
            "Loops::start requires |v| <= MOST_SHIFT"
        );
        Loops {
            steering: Steering::start(v),
            lock: Lock::new(),
        }
    }

    /// Takes the sums of the next dump, each at most `MOST_SUM` in size, and gives what they make
    /// of the lock. After `Lost` the rules stay the same; a channel ends there.
    pub fn take(&mut self, counts: Counts) -> News
        requires small { AreWithin MOST_SUM (counts_in counts) }
        requires room { dump_count self.old < MOST_STEERED_DUMPS }
        ensures counted { dump_count self.new ≡ dump_count self.old + 1 }
        ensures stands { (start : ℤ) (dumps : List DefinedCounts) → StandsFor start dumps self.old
            → StandsFor start (dumps ++ counts_in counts ∷ []) self.new }
        ensures news { (start : ℤ) (dumps : List DefinedCounts) → StandsFor start dumps self.old
            → news_in result ≡ news_of (dumps ++ counts_in counts ∷ []) }
    {
        prove!(
            (counts.ie.unsigned_abs() <= MOST_SUM)
                & (counts.qe.unsigned_abs() <= MOST_SUM)
                & (counts.ip.unsigned_abs() <= MOST_SUM)
                & (counts.qp.unsigned_abs() <= MOST_SUM)
                & (counts.il.unsigned_abs() <= MOST_SUM)
                & (counts.ql.unsigned_abs() <= MOST_SUM),
            "Loops::take requires sums of at most MOST_SUM in size"
        );
        prove!(
            self.dumps() < MOST_STEERED_DUMPS,
            "Loops::take requires dumps() < MOST_STEERED_DUMPS"
        );
        self.steering.take(counts);
        if self.steering.dumps < FIRST_HOLDING {
            return News::Nothing;
        }
        self.lock.take(&counts)
    }

    /// The carrier's shift, in 1/65536 Hz.
    pub fn v(&self) -> i64
        ensures is { (start : ℤ) (dumps : List DefinedCounts) → StandsFor start dumps self.now
            → result ≡ (loops_after start dumps).v }
        ensures small { unsigned_abs result ≤ MOST_SHIFT }
    {
        self.steering.v
    }

    /// The correction of the code's rate, in 1/65536 chip a second.
    pub fn w(&self) -> i64
        ensures is { (start : ℤ) (dumps : List DefinedCounts) → StandsFor start dumps self.now
            → result ≡ (loops_after start dumps).w }
        ensures small { unsigned_abs result ≤ MOST_CORRECTION }
    {
        self.steering.w
    }

    /// The number of dumps taken.
    pub fn dumps(&self) -> u64
        ensures is { (start : ℤ) (dumps : List DefinedCounts) → StandsFor start dumps self.now
            → result ≡ length dumps }
        ensures counted { result ≡ dump_count self.now }
    {
        self.steering.dumps
    }

    /// Whether the channel is locked to its signal: one of the last ten windows is good.
    pub fn locked(&self) -> bool
        ensures { (start : ℤ) (dumps : List DefinedCounts) → StandsFor start dumps self.now
            → result ≡ is_locked dumps }
    {
        self.lock.is_locked
    }
}
