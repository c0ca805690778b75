//! The pairs of cells that follow one another, in lanes.

ghost use Rattle.std.specs.Prelude.{◌≡◌, ◌+◌, ◌<◌, ◌≤◌, ℕ, pos, length, slice_index};
ghost use Rattle.acquisition.specs.declared.chip_ring.TheConstants.{CELLS_AT_ONCE};
ghost use Rattle.bit_planes.specs.declared.lanes.TheConstants.{LANES};

use crate::chip_ring::CELLS_AT_ONCE;
use bit_planes::LANES;
use std::simd::prelude::*;

/// Pairs of 64 cells that follow one another, or of places of a ring: sixteen in each vector.
#[derive(Drop)]
pub(crate) struct PairLanes {
    pub(crate) first: u32x16,
    pub(crate) second: u32x16,
    pub(crate) third: u32x16,
    pub(crate) fourth: u32x16,
}

impl PairLanes {
    ghost use Rattle.std.specs.Prelude.{ℤ};
    ghost use Rattle.acquisition.specs.Twos.{AreAllPairs, IsPair};

    /// The pairs of no sums.
    #[inline(always)]
    pub(crate) fn none() -> PairLanes
        ensures { AreAllPairs (λ _. pos 0) (λ _. pos 0) result }
    {
        let zero = u32x16::splat(0);
        PairLanes {
            first: zero,
            second: zero,
            third: zero,
            fourth: zero,
        }
    }

    /// The pair of each cell.
    #[inline(always)]
    pub(crate) fn cells(&self) -> [u32; CELLS_AT_ONCE]
        ensures long { length result ≡ CELLS_AT_ONCE }
        ensures cells { (x y : ℕ → ℤ) → AreAllPairs x y self.now → (l : ℕ) → l < CELLS_AT_ONCE
            → IsPair (slice_index result l) (x l) (y l) }
    {
        let mut cells = [0; CELLS_AT_ONCE];
        put_sixteen(&mut cells, 0, &self.first.to_array());
        put_sixteen(&mut cells, LANES, &self.second.to_array());
        put_sixteen(&mut cells, 2 * LANES, &self.third.to_array());
        put_sixteen(&mut cells, 3 * LANES, &self.fourth.to_array());
        cells
    }
}

/// Puts sixteen pairs in, from place `at` on.
#[inline(always)]
fn put_sixteen(cells: &mut [u32; CELLS_AT_ONCE], at: usize, sixteen: &[u32; LANES])
    requires { at + LANES ≤ CELLS_AT_ONCE }
    ensures long { length cells.new ≡ CELLS_AT_ONCE }
    ensures there { (l : ℕ) → l < LANES
        → slice_index cells.new (at + l) ≡ slice_index sixteen.now l }
    ensures before { (i : ℕ) → i < at → slice_index cells.new i ≡ slice_index cells.old i }
{
    prove!(
        at <= CELLS_AT_ONCE - LANES,
        "put_sixteen requires at + LANES <= CELLS_AT_ONCE"
    );
    for l in 0..LANES {
        cells[at + l] = sixteen[l];
    }
}
