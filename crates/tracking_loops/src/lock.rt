//! Whether a channel is locked to its signal.

ghost use Rattle.std.specs.Prelude.{◌≡◌, ◌≤◌, List, [], ◌∷◌, ◌++◌, length, unsigned_abs, min};
ghost use Rattle.std.specs.Prelude.{nat_lt, ◌+◌, ◌==◌, ◌&&◌, ◌||◌, if◌then◌else◌, false};
ghost use Rattle.definitions.specs.Correlation.{Counts as DefinedCounts};
ghost use Rattle.definitions.specs.Lock.{news_of};
ghost use Rattle.lane_correlator.specs.Counting.{counts_in};
ghost use Rattle.tracking_loops.specs.NewsIn.{news_in, news_by};
ghost use Rattle.tracking_loops.specs.declared.limits.TheConstants.{MOST_SUM};
ghost use Rattle.tracking_loops.specs.declared.lock.TheConstants.{LOST_WINDOWS, UNLOCK_WINDOWS};
ghost use Rattle.tracking_loops.specs.declared.steering.TheConstants.{FIRST_HOLDING};

use crate::news::News;
use crate::window::LockWindow;
use lane_correlator::Counts;

/// This many bad windows in a row end the lock.
const UNLOCK_WINDOWS: u8 = 10;

/// After this many bad windows in a row the signal is lost.
const LOST_WINDOWS: u8 = 50;

/// The lock, over the dumps by which the phase is held.
#[derive(Debug, Drop)]
pub struct Lock {
    window: LockWindow,
    /// The bad windows in a row, up to `LOST_WINDOWS`.
    bad_windows: u8,
    pub is_locked: bool,
    ghost bad_windows_in_range: { bad_windows ≤ LOST_WINDOWS },
}

impl Lock {
    ghost use Rattle.tracking_loops.specs.Standing.{IsWatching};

    /// The state before the first window: not locked.
    pub fn new() -> Self
        ensures { IsWatching [] result }
    {
        Lock {
            window: LockWindow::new(),
            bad_windows: 0,
            is_locked: false,
        }
    }

    /// Takes the next dump, which is dump `FIRST_HOLDING` or a later one.
    pub fn take(&mut self, counts: &Counts) -> News
        requires ip { unsigned_abs counts.now.ip ≤ MOST_SUM }
        requires qp { unsigned_abs counts.now.qp ≤ MOST_SUM }
        ensures goes_on { (dumps : List DefinedCounts) → FIRST_HOLDING ≤ length dumps + 1
            → IsWatching dumps self.old
            → IsWatching (dumps ++ counts_in counts.now ∷ []) self.new }
        ensures news { (dumps : List DefinedCounts) → FIRST_HOLDING ≤ length dumps + 1
            → IsWatching dumps self.old
            → news_in result ≡ news_of (dumps ++ counts_in counts.now ∷ []) }
    {
        match self.window.take(counts) {
            Some(is_good) => self.take_window(is_good),
            None => News::Nothing,
        }
    }

    /// Takes a whole window.
    fn take_window(&mut self, is_good: bool) -> News
        ensures run { self.new.bad_windows ≡ (if is_good then 0 else min LOST_WINDOWS
            (self.old.bad_windows + 1)) }
        ensures locked { self.new.is_locked ≡ (is_good ||
            (self.old.is_locked && nat_lt self.new.bad_windows UNLOCK_WINDOWS)) }
        ensures window { self.new.window ≡ self.old.window }
        ensures news { news_in result ≡ news_by (self.new.bad_windows == LOST_WINDOWS)
            self.old.is_locked self.new.is_locked }
    {
        let was_locked = self.is_locked;
        if is_good {
            self.bad_windows = 0;
        } else if self.bad_windows < LOST_WINDOWS {
            self.bad_windows += 1;
        }
        self.is_locked = is_good || was_locked && self.bad_windows < UNLOCK_WINDOWS;
        if self.bad_windows == LOST_WINDOWS {
            News::Lost
        } else {
            change(was_locked, self.is_locked)
        }
    }
}

/// What a change of the lock is reported as.
fn change(was_locked: bool, is_locked: bool) -> News
    ensures { news_in result ≡ news_by false was_locked is_locked }
{
    match (was_locked, is_locked) {
        (false, true) => News::Lock,
        (true, false) => News::Unlock,
        _ => News::Nothing,
    }
}
