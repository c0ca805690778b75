//! Values added up by the half chips at which they lie.

ghost use Rattle.std.specs.Prelude.{◌≡◌, ◌+◌, ◌*◌, ◌<◌, ◌≤◌, ◌+ℤ◌, ◌==◌, ℕ, pos, cond, length};
ghost use Rattle.std.specs.Prelude.{get_or, unsigned_abs};
ghost use Rattle.acquisition.specs.Folds.{sizes_to};
ghost use Rattle.acquisition.specs.declared.half_chip_table.TheConstants.{HALF_CHIPS};
ghost use Rattle.acquisition.specs.declared.sums.TheConstants.{MOST_PERIOD_SUM};

use ca_codes::CODE_CHIPS;

/// The places of a table: two for each of the code's 1,023 chips (IS-GPS-200, section 3.3.2.3).
pub(crate) const HALF_CHIPS: usize = 2 * CODE_CHIPS as usize;

/// The last place.
pub(crate) const LAST: usize = HALF_CHIPS - 1;

/// Values added up by the half chips at which they lie. Their sizes come to at most those over a
/// period of the code.
#[derive(Debug, Drop)]
pub(crate) struct HalfChipTable {
    sums: [i32; HALF_CHIPS],
    ghost long: { length sums ≡ HALF_CHIPS },
    ghost small: { sizes_to sums HALF_CHIPS ≤ MOST_PERIOD_SUM },
}

impl HalfChipTable {
    /// The table of no values: each sum is 0.
    #[inline(always)]
    pub(crate) fn new() -> HalfChipTable
        ensures none { (k : ℕ) → k < HALF_CHIPS → get_or result.sums k (pos 0) ≡ pos 0 }
        ensures sizes { sizes_to result.sums HALF_CHIPS ≡ 0 }
    {
        HalfChipTable {
            sums: [0; HALF_CHIPS],
        }
    }

    /// Adds a sum of values at a place.
    #[inline(always)]
    pub(crate) fn add(&mut self, place: usize, sum: i32)
        requires place { place < HALF_CHIPS }
        requires room { sizes_to self.old.sums HALF_CHIPS + unsigned_abs sum ≤ MOST_PERIOD_SUM }
        ensures added { (k : ℕ) → k < HALF_CHIPS → get_or self.new.sums k (pos 0)
            ≡ get_or self.old.sums k (pos 0) +ℤ cond (place == k) sum (pos 0) }
        ensures sizes { sizes_to self.new.sums HALF_CHIPS
            ≤ sizes_to self.old.sums HALF_CHIPS + unsigned_abs sum }
    {
        self.sums[place] += sum;
    }

    /// The sum at a place.
    #[inline(always)]
    pub(crate) fn sum(&self, place: usize) -> i32
        requires { place < HALF_CHIPS }
        ensures value { result ≡ get_or self.now.sums place (pos 0) }
        ensures small { unsigned_abs result ≤ MOST_PERIOD_SUM }
    {
        self.sums[place]
    }

    /// The sizes of all sums, added up.
    pub(crate) fn sizes(&self) -> u32
        ensures { result ≡ sizes_to self.now.sums HALF_CHIPS }
    {
        let mut sizes = 0;
        for k in 0..HALF_CHIPS {
            sizes += self.sums[k].unsigned_abs();
        }
        sizes
    }
}
