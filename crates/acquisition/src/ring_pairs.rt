//! Rings of chips for two parts at once, and for two chips at once.

ghost use Rattle.std.specs.Prelude.{◌≡◌, ◌+◌, ◌*◌, ◌%◌, ◌^◌, ◌<◌, slice_index};
ghost use Rattle.acquisition.specs.declared.chip_ring.TheConstants.{RING};

use crate::chip_ring::{ChipRing, RING};
use crate::half_chip_table::LAST;

impl ChipRing {
    ghost use Rattle.acquisition.specs.Rings.{ArePaired, with_next};
    ghost use Rattle.acquisition.specs.Twos.{AreTwos, IsClosed};

    /// Makes each entry the pair of what it was and of the entry of another ring.
    pub(crate) fn pair_with(&mut self, second: &ChipRing)
        ensures { ArePaired self.old.chips second.now.chips self.new.chips }
    {
        for i in 0..RING {
            self.chips[i] = pair(self.chips[i], second.chips[i]);
        }
    }

    /// Makes each entry the sum of two chips that follow one another, from a ring of single chips.
    pub(crate) fn set_twos(&mut self, one: &ChipRing)
        requires { IsClosed one.now.chips }
        ensures { AreTwos one.now.chips self.new.chips }
    {
        for i in 0..RING {
            self.chips[i] = one.with_next(i);
        }
    }

    /// The sum of a chip's entry and that of the next chip, which lies two places before it.
    #[inline(always)]
    fn with_next(&self, i: usize) -> u32
        requires closed { IsClosed self.now.chips }
        requires place { i < RING }
        ensures { result ≡ with_next (slice_index self.now.chips) i % 2 ^ 32 }
    {
        let next = if i < 2 { i + LAST - 1 } else { i - 2 };
        self.chips[i].wrapping_add(self.chips[next])
    }
}

/// Two numbers in one, modulo 2^32.
#[inline(always)]
pub(crate) fn pair(first: u32, second: u32) -> u32
    ensures { result ≡ (first + 2 ^ 16 * second) % 2 ^ 32 }
{
    first.wrapping_add(second.wrapping_mul(1 << 16))
}
