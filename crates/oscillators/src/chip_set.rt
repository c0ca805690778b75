//! Chips in which 64 samples lie, by their numbers.

ghost use Rattle.std.specs.Prelude.{◌≡◌, ◌+◌, ◌-◌, ◌*◌, ◌/◌, ◌<◌, ℕ, length, slice_index};
ghost use Rattle.bit_planes.specs.declared.plane.TheConstants.{WORD_PLACES};
ghost use Rattle.oscillators.specs.ChipSets.{IsLong, IsSetOf};
ghost use Rattle.oscillators.specs.declared.code_strides.TheConstants.{CHIP_SETS};

use std::simd::prelude::*;

/// The chips in which 64 samples lie where they lie half a chip further than before, and the chips
/// in which they lay before.
#[derive(Clone, Copy, Debug)]
pub(crate) struct ChipSet {
    further: u8x64,
    /// What makes of those chips the ones half a chip before, by exclusive or.
    turns: u8x64,
}

impl ChipSet {
    /// The chips of samples that lay `more` half chips after others.
    pub(crate) fn new(half: u8x64, more: u8) -> ChipSet
        requires half { length half ≡ WORD_PLACES }
        requires few { more < CHIP_SETS }
        ensures long { IsLong result }
        ensures chips { (k : ℕ) → k < WORD_PLACES → slice_index half k + more + 1 < 256
            → IsSetOf (slice_index half k + more) k result }
    {
        let further = chips_after(half, more + 1);
        ChipSet {
            further,
            turns: further ^ chips_after(half, more),
        }
    }

    /// The chips of the samples. They lie where they lay before in lanes whose mask is 255.
    #[inline(always)]
    pub(crate) fn kept(&self, stays: u8x64) -> u8x64
        requires long { IsLong self.now }
        requires stays { length stays ≡ WORD_PLACES }
        ensures long { length result ≡ WORD_PLACES }
        ensures chips { (half k more : ℕ) → k < WORD_PLACES → half < 256 → more < 2
            → IsSetOf half k self.now → slice_index stays k ≡ 255 * (1 - more)
            → slice_index result k ≡ (half + more) / 2 }
    {
        self.further ^ (self.turns & stays)
    }
}

/// The chips that lie some half chips after others, all by their numbers.
fn chips_after(half: u8x64, more: u8) -> u8x64
    requires { length half ≡ WORD_PLACES }
    ensures long { length result ≡ WORD_PLACES }
    ensures chips { (k : ℕ) → k < WORD_PLACES → slice_index half k + more < 256
        → slice_index result k ≡ (slice_index half k + more) / 2 }
{
    (half + u8x64::splat(more)) >> u8x64::splat(1)
}
