//! The powers of cells where the sums in phase and in quadrature are added up at once.

ghost use Rattle.std.specs.Prelude.{◌≡◌, ◌+◌, ◌*◌, ◌/◌, ◌%◌, ◌^◌, ◌<◌, ◌≤◌, ◌+ℤ◌, ◌-ℤ◌, ℕ, pos};
ghost use Rattle.std.specs.Prelude.{true, length, slice_index, unsigned_abs};
ghost use Rattle.acquisition.specs.Pairs.{half_pair, power_of_pair};
ghost use Rattle.acquisition.specs.declared.chip_ring.TheConstants.{CELLS_AT_ONCE};
ghost use Rattle.acquisition.specs.declared.fold.TheConstants.{MOST_SMALL};
ghost use Rattle.acquisition.specs.declared.half_chip_table.TheConstants.{HALF_CHIPS};
ghost use Rattle.ca_codes.specs.declared.book.TheConstants.{CODE_CHIPS};
ghost use Rattle.acquisition.specs.declared.sums.TheConstants.{MOST_PERIOD_POWER};

use crate::chip_ring::{CELLS_AT_ONCE, RAISED};
use crate::half_chip_table::HALF_CHIPS;
use crate::ones::Ones;
use crate::period_sums::PeriodSums;
use crate::ring_pairs::pair;
use crate::sums::Sums;

/// The sums over all samples, each raised by 2^16: their halves as a pair, and what these leave.
#[derive(Clone, Copy)]
struct RaisedWhole {
    /// The first half is raised by what raises the sum over the chips of 1 as well.
    halves: u32,
    in_phase_rest: u32,
    quadrature_rest: u32,
}

impl PeriodSums {
    ghost use Rattle.acquisition.specs.PeriodStates.{ArePowersOf};
    ghost use Rattle.acquisition.specs.Pairs.{IsRaisedWhole};

    /// The powers of 64 cells from half chip `half` on, where half of each sum of a cell fits in 16
    /// bits.
    pub(crate) fn powers_by_pairs(&self, ones: &Ones, half: usize) -> [u64; CELLS_AT_ONCE]
        requires small { self.now.is_small ≡ true }
        requires half { half < HALF_CHIPS }
        ensures long { length result ≡ CELLS_AT_ONCE }
        ensures powers { ArePowersOf self.now ones.now half CELLS_AT_ONCE result }
        ensures most { (l : ℕ) → l < CELLS_AT_ONCE → slice_index result l ≤ MOST_PERIOD_POWER }
    {
        let picked = self.first.at_ones(ones, half);
        let whole = self.raised_whole(ones.count());
        powers_of(whole, &picked)
    }

    /// The sums over all samples, each raised by 2^16, for sums over so many chips of 1.
    #[inline(always)]
    fn raised_whole(&self, ones: usize) -> RaisedWhole
        requires small { self.now.is_small ≡ true }
        requires ones { ones ≤ CODE_CHIPS }
        ensures { IsRaisedWhole self.now ones result }
    {
        let in_phase = raised(self.whole.in_phase);
        let quadrature = raised(self.whole.quadrature);
        RaisedWhole {
            halves: pair(in_phase / 2 + RAISED * ones as u32, quadrature / 2),
            in_phase_rest: in_phase % 2,
            quadrature_rest: quadrature % 2,
        }
    }
}

/// The range of 16 bits: what raises a sum that is smaller, so that it isn't below 0.
const ALL_OF_16_BITS: i32 = 1 << 16;

/// A sum whose half fits in 16 bits, raised by 2^16.
#[inline(always)]
fn raised(sum: i32) -> u32
    requires { unsigned_abs sum ≤ MOST_SMALL }
    ensures value { pos result ≡ sum +ℤ pos (2 ^ 16) }
    ensures most { result < 2 ^ 17 }
{
    (sum + ALL_OF_16_BITS) as u32
}

/// The powers of cells, from their pairs at the chips of 1.
#[inline(always)]
fn powers_of(whole: RaisedWhole, picked: &[u32; CELLS_AT_ONCE]) -> [u64; CELLS_AT_ONCE]
    requires in_phase { whole.in_phase_rest < 2 }
    requires quadrature { whole.quadrature_rest < 2 }
    ensures long { length result ≡ CELLS_AT_ONCE }
    ensures powers { (l : ℕ) → l < CELLS_AT_ONCE → slice_index result l
        ≡ power_of_pair (half_pair whole.halves (slice_index picked.now l)) whole }
    ensures most { (l : ℕ) → l < CELLS_AT_ONCE → slice_index result l ≤ MOST_PERIOD_POWER }
{
    let mut powers = [0; CELLS_AT_ONCE];
    for l in 0..CELLS_AT_ONCE {
        let halves = whole.halves.wrapping_sub(picked[l]);
        let sums = Sums {
            in_phase: lowered(halves % (1 << 16), whole.in_phase_rest),
            quadrature: lowered(halves >> 16, whole.quadrature_rest),
        };
        powers[l] = sums.power();
    }
    powers
}

/// A sum that was raised by 2^16, from its half and what this leaves.
#[inline(always)]
fn lowered(half: u32, rest: u32) -> i32
    requires half { half < 2 ^ 16 }
    requires rest { rest < 2 }
    ensures value { result ≡ pos (2 * half + rest) -ℤ pos (2 ^ 16) }
    ensures small { unsigned_abs result ≤ 2 ^ 16 }
{
    (2 * half + rest) as i32 - ALL_OF_16_BITS
}
