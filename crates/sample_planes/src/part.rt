//! One part of a run of samples, in phase or in quadrature, as codes of its signs and sizes.

ghost use Rattle.std.specs.Prelude.{◌≡◌, ◌+◌, ◌*◌, ◌%◌, ◌<◌, ◌≤◌, ℕ, length, slice_index};
ghost use Rattle.std.specs.Prelude.{unsigned_abs};
ghost use Rattle.bit_planes.specs.ByteLanes.{place_in};
ghost use Rattle.bit_planes.specs.declared.plane.TheConstants.{WORDS, WORD_PLACES};
ghost use Rattle.sample_planes.specs.declared.part.TheConstants.{MOST_SIZE};
ghost use Rattle.sample_planes.specs.declared.planes.TheConstants.{MAX_SAMPLES};

use crate::planes::MAX_SAMPLES;
use bit_planes::WORDS;
use std::simd::prelude::*;

/// The greatest size of a part of a sample, that of a part with a magnitude of 1.
pub const MOST_SIZE: u8 = 3;

/// The parts in phase, or those in quadrature, of a run of samples.
#[derive(Drop)]
pub(crate) struct Part {
    /// A code for each of them: 4 where it is below 0, and 8 more where it is 3 in size. Place
    /// `64 * w + k` is that of sample `64 * w + 63 - k`.
    codes: [u8; MAX_SAMPLES],
    ghost few: { (k : ℕ) → k < MAX_SAMPLES → slice_index codes k < 16 },
    ghost fourth: { (k : ℕ) → k < MAX_SAMPLES → slice_index codes k % 4 ≡ 0 },
}

impl Part {
    ghost use Rattle.sample_planes.specs.Signs.{code_at, part_at};
    ghost use Rattle.sample_planes.specs.Codes.{IsCode, IsCodeNumber};

    /// The parts of samples that are not known yet.
    pub(crate) fn new() -> Part {
        Part {
            codes: [0; MAX_SAMPLES],
        }
    }

    /// Sets the parts of the 64 samples from `64 * w` on by their codes, that of the first in the
    /// last lane.
    pub(crate) fn put(&mut self, w: usize, codes: u8x64)
        requires word { w < WORDS }
        requires long { length codes ≡ WORD_PLACES }
        requires codes { (k : ℕ) → k < WORD_PLACES → IsCodeNumber (slice_index codes k) }
        ensures there { (j : ℕ) → j < WORD_PLACES
            → code_at self.new (WORD_PLACES * w + j) ≡ place_in codes j }
        ensures kept { (i : ℕ) → i < WORD_PLACES * w → code_at self.new i ≡ code_at self.old i }
    {
        prove!(w < WORDS, "Part::put requires w < WORDS");
        codes.copy_to_slice(&mut self.codes[64 * w..]);
    }

    /// The part of sample `i`: 1 or -1, and of two bits also 3 or -3.
    #[tactic(auto, unfolding(crate::specs::Signs::code_at))]
    pub(crate) fn value(&self, i: usize) -> i8
        requires { i < MAX_SAMPLES }
        ensures value { result ≡ part_at self.now i }
        ensures small { unsigned_abs result ≤ MOST_SIZE }
    {
        let code = self.codes[64 * (i / 64) + (63 - i % 64)];
        let size = (1 + 2 * (code / 8)) as i8;
        // A processor can't predict a sample's value. So this is a form that needs no branch.
        if code / 4 % 2 == 0 { size } else { -size }
    }

    /// Codes of the parts of the samples from `64 * w` on: 4 for a part below 0, and 8 more for one
    /// that is 3 in size. Lane k stands for sample `64 * w + 63 - k`.
    pub(crate) fn codes(&self, w: usize) -> u8x64
        requires { w < WORDS }
        ensures long { length result ≡ WORD_PLACES }
        ensures few { (k : ℕ) → k < WORD_PLACES → slice_index result k < 16 }
        ensures fourth { (k : ℕ) → k < WORD_PLACES → slice_index result k % 4 ≡ 0 }
        ensures codes { (j : ℕ) → j < WORD_PLACES
            → IsCode (part_at self.now (WORD_PLACES * w + j)) (place_in result j) }
    {
        prove!(w < WORDS, "Part::codes requires w < WORDS");
        u8x64::from_slice(&self.codes[64 * w..])
    }
}
