//! Two sums of products, in lanes of bytes.

ghost use Rattle.std.specs.Prelude.{◌≡◌, ◌+◌, ◌<◌, ◌≤◌, ℕ, length, slice_index};
ghost use Rattle.std.specs.Prelude.{unsigned_abs};
ghost use Rattle.bit_planes.specs.declared.plane.TheConstants.{WORD_PLACES};
ghost use Rattle.lane_correlator.specs.Bytes.{sum_of_lanes};
ghost use Rattle.lane_correlator.specs.declared.lane_sums.TheConstants.{HALF, MOST_OF_LANES};

use std::simd::prelude::*;

/// The lanes of a sum. Each takes two places of a word.
pub(crate) const HALF: usize = 32;

/// The most that the lanes of a sum come to.
pub(crate) const MOST_OF_LANES: u32 = 4_096;

/// Sums in phase and in quadrature, spread over lanes of bytes, modulo 256.
#[derive(Clone, Copy, Debug)]
pub(crate) struct LaneSums {
    i: u8x32,
    q: u8x32,
    ghost lanes: { (length i ≡ HALF) × (length q ≡ HALF) },
    ghost bytes_i: { (k : ℕ) → k < HALF → slice_index i k < 256 },
    ghost bytes_q: { (k : ℕ) → k < HALF → slice_index q k < 256 },
}

impl LaneSums {
    ghost use Rattle.lane_correlator.specs.LaneTotals.{AreAdded, AreNone};
    ghost use Rattle.lane_correlator.specs.LaneTotals.{in_phase_of, quadrature_of};

    /// The sums over no samples.
    pub(crate) fn none() -> LaneSums
        ensures { AreNone result }
    {
        LaneSums {
            i: u8x32::splat(0),
            q: u8x32::splat(0),
        }
    }

    /// Adds the numbers of 64 lanes, lanes 0 to 31 and then lanes 32 to 63.
    #[inline(always)]
    pub(crate) fn add(self, i: u8x64, q: u8x64) -> LaneSums
        requires i { length i ≡ WORD_PLACES }
        requires q { length q ≡ WORD_PLACES }
        ensures { AreAdded i q self result }
    {
        LaneSums {
            i: self.i + low_half(i) + high_half(i),
            q: self.q + low_half(q) + high_half(q),
        }
    }

    /// The sum in phase with chips, where `turned` has the products whose chips are -1, and these
    /// sums have all products.
    pub(crate) fn in_phase(&self, turned: &LaneSums) -> i32
        ensures value { result ≡ in_phase_of self.now turned.now }
        ensures small { unsigned_abs result ≤ MOST_OF_LANES }
    {
        sum_of_lanes(self.i, turned.i)
    }

    /// The sum in quadrature with chips, as `in_phase` gives that in phase.
    pub(crate) fn quadrature(&self, turned: &LaneSums) -> i32
        ensures value { result ≡ quadrature_of self.now turned.now }
        ensures small { unsigned_abs result ≤ MOST_OF_LANES }
    {
        sum_of_lanes(self.q, turned.q)
    }
}

/// Lanes 0 to 31.
#[inline(always)]
fn low_half(lanes: u8x64) -> u8x32
    requires { length lanes ≡ WORD_PLACES }
    ensures long { length result ≡ HALF }
    ensures lanes { (k : ℕ) → k < HALF → slice_index result k ≡ slice_index lanes k }
{
    lanes.extract::<0, HALF>()
}

/// Lanes 32 to 63.
#[inline(always)]
fn high_half(lanes: u8x64) -> u8x32
    requires { length lanes ≡ WORD_PLACES }
    ensures long { length result ≡ HALF }
    ensures lanes { (k : ℕ) → k < HALF → slice_index result k ≡ slice_index lanes (HALF + k) }
{
    lanes.extract::<HALF, HALF>()
}

/// The sum of lanes, each less twice what turned products make of it.
fn sum_of_lanes(all: u8x32, turned: u8x32) -> i32
    requires all { length all ≡ HALF }
    requires turned { length turned ≡ HALF }
    ensures value { result ≡ sum_of_lanes all turned }
    ensures small { unsigned_abs result ≤ MOST_OF_LANES }
{
    // They are raised by 128, so that none is below 0.
    let lanes = all - turned - turned + u8x32::splat(128);
    lanes.cast::<u16>().reduce_sum() as i32 - 4_096
}
