//! The sums over a period, and the powers of cells from them.

ghost use Rattle.std.specs.Prelude.{◌≡◌, ◌+◌, ◌*◌, ◌<◌, ◌≤◌, ℕ, true, false, length};
ghost use Rattle.std.specs.Prelude.{slice_index, unsigned_abs};
ghost use Rattle.definitions.specs.Samples.{Sample};
ghost use Rattle.acquisition.specs.Rings.{IsPart};
ghost use Rattle.acquisition.specs.FoldRings.{AreRingsOf};
ghost use Rattle.acquisition.specs.declared.chip_ring.TheConstants.{CELLS_AT_ONCE};
ghost use Rattle.sample_planes.specs.declared.planes.TheConstants.{MOST_TIME};
ghost use Rattle.acquisition.specs.declared.fold.TheConstants.{MOST_SMALL};
ghost use Rattle.acquisition.specs.declared.half_chip_table.TheConstants.{HALF_CHIPS};
ghost use Rattle.acquisition.specs.declared.sums.TheConstants.{MOST_PERIOD_SUM, MOST_PERIOD_POWER};
ghost use Rattle.oscillators.specs.declared.settings.TheConstants.{MOST_PER_MS};

use crate::bin_steps::Steps;
use crate::chip_ring::CELLS_AT_ONCE;
use crate::fold::Fold;
use crate::ones::Ones;
use crate::ring_by_twos::RingByTwos;
use crate::sums::Sums;
use sample_planes::SampleSource;

/// The sums over a period's samples without their carrier: over a chip wherever it begins, and over
/// all.
#[derive(Debug, Drop)]
pub(crate) struct PeriodSums {
    /// The sums of both parts in one where they are small, else those in phase.
    pub(crate) first: RingByTwos,
    /// The sums in quadrature, where they aren't small.
    pub(crate) second: RingByTwos,
    pub(crate) whole: Sums,
    /// Whether half of each sum of a cell fits in 16 bits.
    is_small: bool,
    ghost in_phase_most: { unsigned_abs whole.in_phase ≤ MOST_PERIOD_SUM },
    ghost quadrature_most: { unsigned_abs whole.quadrature ≤ MOST_PERIOD_SUM },
    ghost in_phase_small: { is_small ≡ true → unsigned_abs whole.in_phase ≤ MOST_SMALL },
    ghost quadrature_small: { is_small ≡ true → unsigned_abs whole.quadrature ≤ MOST_SMALL },
    ghost in_phase_part: { is_small ≡ false → IsPart first.one.chips whole.in_phase },
    ghost quadrature_part: { is_small ≡ false → IsPart second.one.chips whole.quadrature },
}

impl PeriodSums {
    ghost use Rattle.acquisition.specs.FoldStates.{AreHeld};
    ghost use Rattle.acquisition.specs.PeriodStates.{ArePowersOf, AreSumsOf};

    /// The sums over no samples.
    #[inline(always)]
    pub(crate) fn new() -> PeriodSums {
        PeriodSums {
            first: RingByTwos::new(),
            second: RingByTwos::new(),
            whole: Sums::NONE,
            is_small: true,
        }
    }

    /// Takes the sums over samples `first` to `first + len - 1` of a source, as a fold does.
    pub(crate) fn fill<S: SampleSource>(
        &mut self,
        source: &S,
        first: u64,
        before: u64,
        len: usize,
        steps: Steps,
    )
        requires from { S.from source.now ≤ first }
        requires to { first + len ≤ S.to source.now }
        requires early { first ≤ 2 * MOST_TIME }
        requires short { len ≤ MOST_PER_MS }
        requires moving { 0 < steps.code }
        ensures { (x : ℕ → Sample) → AreHeld (S.held source.now) first x before len
            → AreSumsOf x steps.code steps.carrier before len self.new }
    {
        let mut fold = Fold::new();
        fold.fill(source, first, before, len, steps);
        self.whole = fold.whole();
        self.is_small = fold.is_small();
        set_rings(&mut self.first, &mut self.second, &fold, self.is_small);
    }

    /// The powers over the period of 64 cells that follow one another, whose codes begin at half
    /// chip `half` and at those after it. A sum with a code is that of all samples less twice that
    /// of those at chips of 1.
    pub(crate) fn powers(&self, ones: &Ones, half: usize) -> [u64; CELLS_AT_ONCE]
        requires half { half < HALF_CHIPS }
        ensures long { length result ≡ CELLS_AT_ONCE }
        ensures powers { ArePowersOf self.now ones.now half CELLS_AT_ONCE result }
        ensures most { (l : ℕ) → l < CELLS_AT_ONCE → slice_index result l ≤ MOST_PERIOD_POWER }
    {
        if self.is_small {
            self.powers_by_pairs(ones, half)
        } else {
            self.powers_by_parts(ones, half)
        }
    }
}

/// Sets two rings to the sums of a fold: the first to the pairs of both parts where these are
/// small, else one to each part.
fn set_rings(first: &mut RingByTwos, second: &mut RingByTwos, fold: &Fold, is_small: bool)
    ensures { AreRingsOf fold.now is_small first.new.one.chips second.new.one.chips }
{
    if is_small {
        first.set_pairs(&fold.in_phase, &fold.quadrature);
    } else {
        first.set(&fold.in_phase);
        second.set(&fold.quadrature);
    }
}
