//! 64 bytes at a time, one for each place of a word.

ghost use Rattle.std.specs.Prelude.{◌≡◌, ◌+◌, ◌-◌, ◌*◌, ◌/◌, ◌%◌, ◌<◌, ◌≤◌, ℕ, length};
ghost use Rattle.std.specs.Prelude.{slice_index};
ghost use Rattle.std.specs.Int.{bit_at};
ghost use Rattle.bit_planes.specs.declared.lanes.TheConstants.{LANES};
ghost use Rattle.bit_planes.specs.declared.plane.TheConstants.{WORD_PLACES};

use std::simd::prelude::*;

/// The numbers of two times sixteen lanes.
const THIRTY_TWO: [usize; 32] = [
    0, 1, 2, 3, 4, 5, 6, 7, 8, 9, 10, 11, 12, 13, 14, 15, 16, 17, 18, 19, 20, 21, 22, 23, 24, 25,
    26, 27, 28, 29, 30, 31,
];

/// The numbers of the lanes of a word.
const SIXTY_FOUR: [usize; 64] = [
    0, 1, 2, 3, 4, 5, 6, 7, 8, 9, 10, 11, 12, 13, 14, 15, 16, 17, 18, 19, 20, 21, 22, 23, 24, 25,
    26, 27, 28, 29, 30, 31, 32, 33, 34, 35, 36, 37, 38, 39, 40, 41, 42, 43, 44, 45, 46, 47, 48, 49,
    50, 51, 52, 53, 54, 55, 56, 57, 58, 59, 60, 61, 62, 63,
];

/// Bit `number` of each of 64 bytes, the lowest being bit 0: that of lane k is bit k.
pub fn bit_of_each(bytes: u8x64, number: u32) -> u64
    requires bytes { length bytes ≡ WORD_PLACES }
    requires number { number < 8 }
    ensures { (k : ℕ) → k < WORD_PLACES
        → bit_at result k ≡ bit_at (slice_index bytes k) number }
{
    prove!(number < 8, "bit_of_each requires number < 8");
    (bytes & u8x64::splat(1 << number))
        .simd_ne(u8x64::splat(0))
        .to_bitmask()
}

/// 64 bytes of a table, by their lanes' numbers. Each sixteen lanes count from a place of their
/// own.
pub fn pick_from_four(table: &[u8], at: [usize; 4], numbers: u8x64) -> u8x64
    requires long { (b : ℕ) → b < 4 → slice_index at b + LANES ≤ length table.now }
    requires numbers { length numbers ≡ WORD_PLACES }
    requires below { (k : ℕ) → k < WORD_PLACES → slice_index numbers k < LANES }
    ensures long { length result ≡ WORD_PLACES }
    ensures picked { (k : ℕ) → k < WORD_PLACES → slice_index result k ≡ slice_index table.now
        (slice_index at (k / LANES) + slice_index numbers k) }
{
    four_windows(table, at).swizzle_dyn_within::<16>(numbers)
}

/// Sixteen bytes of a table from each of four places on.
fn four_windows(table: &[u8], at: [usize; 4]) -> u8x64
    requires { (b : ℕ) → b < 4 → slice_index at b + LANES ≤ length table.now }
    ensures long { length result ≡ WORD_PLACES }
    ensures windows { (k : ℕ) → k < WORD_PLACES → slice_index result k ≡ slice_index table.now
        (slice_index at (k / LANES) + k % LANES) }
{
    let low = two_windows(table, at[0], at[1]);
    let high = two_windows(table, at[2], at[3]);
    low.shuffle(high, SIXTY_FOUR)
}

/// Sixteen bytes of a table from a place on, and sixteen from another.
fn two_windows(table: &[u8], first: usize, second: usize) -> u8x32
    requires first { first + LANES ≤ length table.now }
    requires second { second + LANES ≤ length table.now }
    ensures long { length result ≡ 2 * LANES }
    ensures first { (r : ℕ) → r < LANES → slice_index result r ≡ slice_index table.now (first + r) }
    ensures second { (r : ℕ) → LANES ≤ r → r < 2 * LANES
        → slice_index result r ≡ slice_index table.now (second + (r - LANES)) }
{
    u8x16::from_slice(&table[first..]).shuffle(u8x16::from_slice(&table[second..]), THIRTY_TWO)
}
