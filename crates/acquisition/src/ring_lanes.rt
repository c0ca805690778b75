//! The entries of a ring at chips, added up for cells that follow one another.

ghost use Rattle.std.specs.Prelude.{◌+◌, ◌*◌, ◌<◌, ◌≤◌, ◌+ℤ◌, ℕ, ℤ, length, slice_index};
ghost use Rattle.acquisition.specs.declared.chip_ring.TheConstants.{RING, CELLS_AT_ONCE};
ghost use Rattle.acquisition.specs.declared.half_chip_table.TheConstants.{HALF_CHIPS};
ghost use Rattle.bit_planes.specs.declared.lanes.TheConstants.{LANES};

use crate::chip_ring::{CELLS_AT_ONCE, ChipRing, place_of};
use crate::pair_lanes::PairLanes;
use bit_planes::LANES;
use std::simd::prelude::*;

impl ChipRing {
    ghost use Rattle.acquisition.specs.Rings.{AreEntries, sum_at};
    ghost use Rattle.acquisition.specs.Twos.{HasPairs, AreAllPairs};

    /// Pairs of 64 cells from half chip `half` on, with the entries at the places of some
    /// chips added to them.
    #[inline(never)]
    pub(crate) fn add_at(&self, places: &[u16], half: usize, lanes: PairLanes) -> PairLanes
        requires half { half < HALF_CHIPS }
        requires below { (k : ℕ) → k < length places.now → slice_index places.now k < HALF_CHIPS }
        ensures { (x y : ℕ → ℤ) (f g : ℕ → ℕ) → HasPairs f g self.now.chips
            → AreAllPairs x y lanes
            → AreAllPairs (λ l. x l +ℤ sum_at f half places.now (length places.now) l)
            (λ l. y l +ℤ sum_at g half places.now (length places.now) l) result }
    {
        let PairLanes {
            mut first,
            mut second,
            mut third,
            mut fourth,
        } = lanes;
        for k in 0..places.len() {
            let more = self.sixty_four(place_of(half, usize::from(places[k])));
            first = first + more.first;
            second = second + more.second;
            third = third + more.third;
            fourth = fourth + more.fourth;
        }
        PairLanes {
            first,
            second,
            third,
            fourth,
        }
    }

    /// The entries at 64 places, from place `at` on.
    #[inline(always)]
    pub(crate) fn sixty_four(&self, at: usize) -> PairLanes
        requires { at + CELLS_AT_ONCE ≤ RING }
        ensures first { AreEntries self.now.chips at result.first }
        ensures second { AreEntries self.now.chips (at + LANES) result.second }
        ensures third { AreEntries self.now.chips (at + 2 * LANES) result.third }
        ensures fourth { AreEntries self.now.chips (at + 3 * LANES) result.fourth }
    {
        let chips = &self.chips[at..at + CELLS_AT_ONCE];
        PairLanes {
            first: u32x16::from_slice(chips),
            second: u32x16::from_slice(&chips[LANES..]),
            third: u32x16::from_slice(&chips[2 * LANES..]),
            fourth: u32x16::from_slice(&chips[3 * LANES..]),
        }
    }
}
