//! How a recording's samples are packed.

ghost use Rattle.std.specs.Prelude.{◌≡◌, ◌+◌, ◌*◌, ◌%◌, ◌<◌, ◌≤◌, if◌then◌else◌};
ghost use Rattle.definitions.specs.Samples.{samples_per_byte};
ghost use Rattle.sample_planes.specs.Packings.{packing_of};
ghost use Rattle.recordings.specs.Readings.{bits_of};
ghost use Rattle.recordings.specs.declared.recipe.TheConstants.{MOST_BYTES};
ghost use Rattle.recordings.specs.declared.numbers.TheConstants.{READING_LIMIT};

use crate::part::PartRecipe;
use crate::value_kind::ValueKind;
use sample_planes::Format;

/// The most bytes that samples are read from at once.
pub const MOST_BYTES: usize = 1 << 20;

/// The most bits of a recording that a sample has: two floats.
pub const MOST_SAMPLE_BITS: usize = 64;

/// The most bytes of a recording that a written byte is made of: eight samples of two floats.
pub const MOST_GROUP: usize = 64;

/// How many values a byte has.
pub const BYTE_VALUES: usize = 256;

/// How a recording's samples are packed.
#[derive(Clone, Copy, Debug, PartialEq, Eq)]
pub struct Recipe {
    /// The kind of the recording's values.
    pub kind: ValueKind,
    /// Whether the recording's values are pairs.
    pub is_paired: bool,
    /// The packing to write.
    pub format: Format,
    /// A value farther from its centre than this has the size 3: twice the value, as the centre.
    pub threshold: u64,
    /// The part in phase.
    pub in_phase: PartRecipe,
    /// The part in quadrature. Where the packing is real it isn't used.
    pub quadrature: PartRecipe,
    ghost in_phase_is_there: { in_phase.place < (if is_paired then 2 else 1) },
    ghost quadrature_is_there: { quadrature.place < (if is_paired then 2 else 1) },
    ghost whole: { samples_per_byte (packing_of format)
        * ((if is_paired then 2 else 1) * bits_of kind) % 8 ≡ 0 },
}

impl Recipe {
    ghost use Rattle.std.specs.Prelude.{length, unsigned_abs};
    ghost use Rattle.recordings.specs.Recordings.{parts_of, sample_bits, value_of};
    ghost use Rattle.recordings.specs.declared.recipe.TheConstants.{MOST_SAMPLE_BITS, MOST_GROUP};
    ghost use Rattle.recordings.specs.Recordings.{group_of};

    /// How many values a sample has.
    pub(crate) fn parts(&self) -> usize
        ensures { result ≡ parts_of self.now }
    {
        if self.is_paired { 2 } else { 1 }
    }
    /// How many bits of a recording a sample has, 1 to `MOST_SAMPLE_BITS`.
    #[must_use]
    pub fn sample_bits(&self) -> usize
        ensures value { result ≡ sample_bits self.now }
        ensures some { 0 < result }
        ensures few { result ≤ MOST_SAMPLE_BITS }
    {
        self.parts() * self.kind.bits()
    }

    /// How many bytes of a recording each written byte is made of, 1 to `MOST_GROUP`.
    #[must_use]
    pub fn group(&self) -> usize
        ensures value { result ≡ group_of self.now }
        ensures some { 0 < result }
        ensures few { result ≤ MOST_GROUP }
    {
        self.format.per_byte() * self.sample_bits() / 8
    }

    /// The value that a part is made of.
    pub(crate) fn value(&self, part: &PartRecipe, bytes: &[u8], n: usize) -> i64
        requires place { part.now.place < parts_of self.now }
        requires few { length bytes.now ≤ MOST_BYTES }
        requires within { sample_bits self.now * (n + 1) ≤ 8 * length bytes.now }
        ensures value { result ≡ value_of self.now part.now bytes.now n }
        ensures small { unsigned_abs result < READING_LIMIT }
    {
        self.kind.reading(bytes, self.parts() * n + part.place)
    }
}
