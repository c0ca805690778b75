//! A ring of chips that is read for two chips at once.

ghost use Rattle.std.specs.Prelude.{◌≡◌, ◌<◌, ℕ, length, slice_index};
ghost use Rattle.acquisition.specs.Twos.{AreTwos, HasPairs};
ghost use Rattle.acquisition.specs.declared.chip_ring.TheConstants.{CELLS_AT_ONCE};
ghost use Rattle.acquisition.specs.declared.half_chip_table.TheConstants.{HALF_CHIPS};

use crate::chip_ring::{CELLS_AT_ONCE, ChipRing};
use crate::half_chip_table::{HALF_CHIPS, HalfChipTable};
use crate::ones::Ones;
use crate::pair_lanes::PairLanes;

/// A ring, and that of the sums of two chips that follow one another.
#[derive(Debug, Drop)]
pub(crate) struct RingByTwos {
    one: ChipRing,
    two: ChipRing,
    ghost twos: { AreTwos one.chips two.chips },
}

impl RingByTwos {
    ghost use Rattle.acquisition.specs.Rings.{ArePairsOf, IsPairAtOnes, IsRing};

    /// A ring of zeros.
    #[inline(always)]
    pub(crate) fn new() -> RingByTwos {
        RingByTwos {
            one: ChipRing::new(),
            two: ChipRing::new(),
        }
    }

    /// Makes the ring that of a table, whatever it was before.
    pub(crate) fn set(&mut self, table: &HalfChipTable)
        ensures { IsRing table.now.sums self.new.one.chips }
    {
        self.one.set(table);
        self.two.set_twos(&self.one);
    }

    /// Makes the ring the pairs of the rings of two tables, whatever it was before.
    pub(crate) fn set_pairs(&mut self, first: &HalfChipTable, second: &HalfChipTable)
        ensures { ArePairsOf first.now.sums second.now.sums self.new.one.chips }
    {
        self.one.set(first);
        // The ring for two chips has the second ring until both are paired.
        self.two.set(second);
        self.one.pair_with(&self.two);
        self.two.set_twos(&self.one);
    }

    /// The sums over a code's chips of 1, for 64 cells from half chip `half` on. A third of these
    /// chips follow another one, with which they are taken.
    #[inline(always)]
    pub(crate) fn at_ones(&self, ones: &Ones, half: usize) -> [u32; CELLS_AT_ONCE]
        requires half { half < HALF_CHIPS }
        ensures long { length result ≡ CELLS_AT_ONCE }
        ensures sums { (first second : ℕ → ℕ) → HasPairs first second self.now.one.chips
            → (l : ℕ) → l < CELLS_AT_ONCE
            → IsPairAtOnes ones.now first second half l (slice_index result l) }
    {
        let alone = self.one.add_at(ones.alone(), half, PairLanes::none());
        self.two.add_at(ones.twos(), half, alone).cells()
    }
}
