//! Numbers in lanes of bytes, where a bit of each lane's own is 1.

ghost use Rattle.std.specs.Prelude.{◌≡◌, ◌*◌, ◌<◌, ◌^◌, ℕ, length, slice_index};
ghost use Rattle.std.specs.Int.{bit_at};
ghost use Rattle.bit_planes.specs.declared.plane.TheConstants.{WORD_PLACES};

use std::simd::prelude::*;

/// `ones` in each of 64 lanes where the bit of its byte that its mask names is 1, and 0 in the
/// others.
pub fn marked_bytes(bytes: u8x64, masks: u8x64, ones: u8) -> u8x64
    requires bytes { length bytes ≡ WORD_PLACES }
    requires masks { length masks ≡ WORD_PLACES }
    ensures long { length result ≡ WORD_PLACES }
    ensures lanes { (k j : ℕ) → k < WORD_PLACES → slice_index masks k ≡ 2 ^ j
        → slice_index result k ≡ bit_at (slice_index bytes k) j * ones }
{
    (bytes & masks)
        .simd_ne(u8x64::splat(0))
        .select(u8x64::splat(ones), u8x64::splat(0))
}
