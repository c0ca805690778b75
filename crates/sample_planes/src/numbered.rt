//! A run of packed samples by their numbers in a recording.

ghost use Rattle.std.specs.Prelude.{◌≡◌, ◌+◌, ◌-◌, ◌<◌, ◌^◌, length};
ghost use Rattle.definitions.specs.Samples.{sample_at};
ghost use Rattle.sample_planes.specs.Sources.{Numbered};

use crate::layout::NEAR_BYTES;
use crate::packed::PackedSamples;
use crate::planes::Planes;
use crate::source::SampleSource;
use std::marker::Model;

/// A run of packed samples, numbered from one of the recording's samples on. Clauses see them as a
/// list, with the number of the first.
#[derive(Debug, Drop)]
pub struct NumberedSamples<'a> {
    samples: PackedSamples<'a>,
    first: u64,
}

impl<'a> Model for NumberedSamples<'a> {
    ghost Value = { Numbered };

    ghost view = { λ s. record { first = s.first; samples = s.samples.samples } };

    ghost invariant = { λ s. s.first + length s.samples.samples < 2 ^ 64 };
}

impl<'a> NumberedSamples<'a> {
    /// The samples of a run, the first of them being sample `first` of the recording. The number
    /// after the last fits in a `u64`.
    ///
    /// # Panics
    ///
    /// Plain Rust panics where a number would be 2^64 or more.
    #[must_use]
    pub fn new(samples: PackedSamples<'a>, first: u64) -> NumberedSamples<'a>
        requires { first + length samples.samples < 2 ^ 64 }
        ensures { result ≡ record { first = first; samples = samples.entry.samples } }
    {
        prove!(
            samples.len() as u64 <= u64::MAX - first,
            "NumberedSamples::new requires first + samples.len() < 2^64"
        );
        NumberedSamples { samples, first }
    }
}

impl<'a> SampleSource for NumberedSamples<'a> {
    ghost from = { λ s. s.first };

    ghost to = { λ s. s.first + length s.samples };

    ghost held = { λ s n. sample_at s.samples (n - s.first) };

    fn first(&self) -> u64 {
        self.first
    }

    fn end(&self) -> u64 {
        self.first + self.samples.len() as u64
    }

    fn unpack_into(&self, n: u64, len: usize, _near: &mut [u8; NEAR_BYTES], planes: &mut Planes) {
        self.samples
            .part((n - self.first) as usize, len)
            .unpack_into(planes);
    }
}
