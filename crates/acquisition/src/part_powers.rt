//! The powers of cells where the sums in phase and in quadrature are added up apart.

ghost use Rattle.std.specs.Prelude.{◌≡◌, ◌*◌, ◌<◌, ◌≤◌, ◌-ℤ◌, ◌*ℤ◌, ℕ, pos, length, false};
ghost use Rattle.std.specs.Prelude.{slice_index, unsigned_abs};
ghost use Rattle.acquisition.specs.PeriodStates.{ArePowersOf};
ghost use Rattle.acquisition.specs.declared.chip_ring.TheConstants.{CELLS_AT_ONCE, RAISED};
ghost use Rattle.acquisition.specs.declared.half_chip_table.TheConstants.{HALF_CHIPS};
ghost use Rattle.ca_codes.specs.declared.book.TheConstants.{CODE_CHIPS};
ghost use Rattle.acquisition.specs.declared.sums.TheConstants.{MOST_PERIOD_SUM, MOST_PERIOD_POWER};

use crate::chip_ring::{CELLS_AT_ONCE, RAISED};
use crate::half_chip_table::HALF_CHIPS;
use crate::ones::Ones;
use crate::period_sums::PeriodSums;
use crate::sums::Sums;

impl PeriodSums {
    /// The powers of 64 cells from half chip `half` on, where their sums aren't small.
    pub(crate) fn powers_by_parts(&self, ones: &Ones, half: usize) -> [u64; CELLS_AT_ONCE]
        requires great { self.now.is_small ≡ false }
        requires half { half < HALF_CHIPS }
        ensures long { length result ≡ CELLS_AT_ONCE }
        ensures powers { ArePowersOf self.now ones.now half CELLS_AT_ONCE result }
        ensures most { (l : ℕ) → l < CELLS_AT_ONCE → slice_index result l ≤ MOST_PERIOD_POWER }
    {
        let in_phase = self.first.at_ones(ones, half);
        let quadrature = self.second.at_ones(ones, half);
        let raised = RAISED * ones.count() as u32;
        let mut powers = [0; CELLS_AT_ONCE];
        for l in 0..CELLS_AT_ONCE {
            let sums = Sums {
                in_phase: less_twice(self.whole.in_phase, in_phase[l], raised),
                quadrature: less_twice(self.whole.quadrature, quadrature[l], raised),
            };
            powers[l] = sums.power();
        }
        powers
    }
}

/// A sum over all samples less twice what is `picked` of them, which was raised by `raised`.
#[inline(always)]
fn less_twice(whole: i32, picked: u32, raised: u32) -> i32
    requires whole { unsigned_abs whole ≤ MOST_PERIOD_SUM }
    requires picked { picked ≤ 2 * RAISED * CODE_CHIPS }
    requires raised { raised ≤ RAISED * CODE_CHIPS }
    ensures { result ≡ whole -ℤ pos 2 *ℤ (pos picked -ℤ pos raised) }
{
    whole - 2 * (picked as i32 - raised as i32)
}
