//! The windows of dumps that decide the lock.

ghost use Rattle.std.specs.Prelude.{◌≡◌, ◌≤◌, ◌<◌, ◌*◌, List, [], ◌∷◌, ◌++◌, length};
ghost use Rattle.std.specs.Prelude.{unsigned_abs, ◌+◌};
ghost use Rattle.definitions.specs.Correlation.{Counts as DefinedCounts};
ghost use Rattle.lane_correlator.specs.Counting.{counts_in};
ghost use Rattle.tracking_loops.specs.declared.limits.TheConstants.{MOST_SUM};
ghost use Rattle.tracking_loops.specs.declared.window.TheConstants.{DUMPS_OF_WINDOW};
ghost use Rattle.tracking_loops.specs.declared.steering.TheConstants.{FIRST_HOLDING};

use lane_correlator::Counts;

/// Dumps of a window: as many as a data bit has code periods.
const DUMPS_OF_WINDOW: u8 = 20;

/// The window that isn't whole yet.
#[derive(Debug, Drop)]
pub struct LockWindow {
    /// The number of dumps of the window, fewer than `DUMPS_OF_WINDOW`.
    count: u8,
    /// The sum of the sizes of the window's prompt sums in phase.
    in_phase: u32,
    /// The sum of the sizes of the window's prompt sums in quadrature.
    quadrature: u32,
    ghost count_in_range: { count < DUMPS_OF_WINDOW },
    ghost in_phase_in_range: { in_phase ≤ count * MOST_SUM },
    ghost quadrature_in_range: { quadrature ≤ count * MOST_SUM },
}

impl LockWindow {
    ghost use Rattle.tracking_loops.specs.Windows.{good_window};
    ghost use Rattle.tracking_loops.specs.Standing.{IsFilling};

    /// A window without dumps.
    pub fn new() -> Self
        ensures { IsFilling [] result }
    {
        LockWindow {
            count: 0,
            in_phase: 0,
            quadrature: 0,
        }
    }

    /// Takes the next dump and, where it makes the window whole, says whether that is good. Then
    /// the next window begins.
    pub fn take(&mut self, counts: &Counts) -> Option<bool>
        requires ip { unsigned_abs counts.now.ip ≤ MOST_SUM }
        requires qp { unsigned_abs counts.now.qp ≤ MOST_SUM }
        ensures goes_on { (dumps : List DefinedCounts) → FIRST_HOLDING ≤ length dumps + 1
            → IsFilling dumps self.old
            → IsFilling (dumps ++ counts_in counts.now ∷ []) self.new }
        ensures whole { (dumps : List DefinedCounts) → FIRST_HOLDING ≤ length dumps + 1
            → IsFilling dumps self.old
            → result ≡ good_window (dumps ++ counts_in counts.now ∷ []) }
    {
        self.in_phase += counts.ip.unsigned_abs();
        self.quadrature += counts.qp.unsigned_abs();
        self.count += 1;
        if self.count < DUMPS_OF_WINDOW {
            return None;
        }
        let is_good = self.in_phase >= 2 * self.quadrature;
        self.count = 0;
        self.in_phase = 0;
        self.quadrature = 0;
        Some(is_good)
    }
}
