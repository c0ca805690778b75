//! The samples of a run without their carrier, added up.

ghost use Rattle.std.specs.Prelude.{◌≡◌, ◌<◌, ◌≤◌, ◌+◌, ◌-◌, ℕ, length, slice_index};
ghost use Rattle.definitions.specs.Oscillators.{carrier_phase_after};
ghost use Rattle.definitions.specs.Sums.{sum_between};
ghost use Rattle.lane_correlator.specs.Bytes.{signed_byte};
ghost use Rattle.lane_correlator.specs.RunningSums.{ArePartsAtMost};
ghost use Rattle.lane_correlator.specs.declared.products.TheConstants.{SUMS, MOST_AT_ONCE};
ghost use Rattle.bit_planes.specs.declared.plane.TheConstants.{WORD_PLACES, WORDS};
ghost use Rattle.oscillators.specs.declared.carrier.TheConstants.{MOST_PRODUCT};

use crate::running_sums::running_sums;
use crate::wiped::Wiped;
use bit_planes::WORD_PLACES;
use oscillators::CarrierWords;
use sample_planes::Planes;
use std::simd::prelude::*;

/// The most products of a word that are added up at once: the sum of so many fits in a byte.
pub const MOST_AT_ONCE: usize = 14;

/// The sums of a word: over no product, over the first one, and so on to that over all of them.
const SUMS: usize = WORD_PLACES + 1;

/// The samples `64 * w` to `64 * w + 63` of a run, each times the conjugate of a carrier. Product j
/// is that of sample `64 * w + j`, where the run has it: a number of at most `MOST_PRODUCT` in
/// size.
#[derive(Clone, Copy, Debug)]
pub struct Products {
    /// The sums of the parts in phase, modulo 256: place k is that over the first 64 - k products.
    in_phase: [u8; SUMS],
    /// The sums of the parts in quadrature.
    quadrature: [u8; SUMS],
    ghost long: { length in_phase ≡ SUMS },
    ghost long_q: { length quadrature ≡ SUMS },
    ghost small: { ArePartsAtMost MOST_PRODUCT in_phase },
    ghost small_q: { ArePartsAtMost MOST_PRODUCT quadrature },
}

impl Products {
    ghost use Rattle.lane_correlator.specs.SampleProducts.{AreProducts};
    ghost use Rattle.lane_correlator.specs.SampleProducts.{in_phase_of, quadrature_of};

    /// The products of word `w` of a run with a carrier that stands at the first sample of the
    /// word. The carrier goes on to the next word.
    #[inline(always)]
    pub fn new(samples: &Planes, w: usize, carrier: &mut CarrierWords<'_>) -> Products
        requires { w < WORDS }
        ensures products { AreProducts samples.now w carrier.old result }
        ensures moved { carrier.new ≡ record carrier.old {
          phase = carrier_phase_after carrier.old.phase carrier.old.step WORD_PLACES;
        } }
    {
        let eighths = carrier.next_eighths();
        let wiped = Wiped::new(eighths, samples.codes(w), samples.codes_q(w));
        Products {
            in_phase: from_none(running_sums(wiped.i)),
            quadrature: from_none(running_sums(wiped.q)),
        }
    }

    /// The sum of the parts in phase of products `first` to `end` - 1, counted from 0.
    #[inline(always)]
    pub fn in_phase(&self, first: usize, end: usize) -> i32
        requires ordered { first ≤ end }
        requires end { end ≤ WORD_PLACES }
        requires few { end - first ≤ MOST_AT_ONCE }
        ensures { result ≡ sum_between (in_phase_of self.now) first end }
    {
        difference(
            self.in_phase[WORD_PLACES - end],
            self.in_phase[WORD_PLACES - first],
        )
    }

    /// The sum of the parts in quadrature of products `first` to `end` - 1, counted from 0.
    #[inline(always)]
    pub fn quadrature(&self, first: usize, end: usize) -> i32
        requires ordered { first ≤ end }
        requires end { end ≤ WORD_PLACES }
        requires few { end - first ≤ MOST_AT_ONCE }
        ensures { result ≡ sum_between (quadrature_of self.now) first end }
    {
        difference(
            self.quadrature[WORD_PLACES - end],
            self.quadrature[WORD_PLACES - first],
        )
    }
}

/// Sums, with that over nothing after them.
#[inline(always)]
fn from_none(sums: u8x64) -> [u8; SUMS]
    requires { length sums ≡ WORD_PLACES }
    ensures long { length result ≡ SUMS }
    ensures sums { (k : ℕ) → k < WORD_PLACES → slice_index result k ≡ slice_index sums k }
    ensures none { slice_index result WORD_PLACES ≡ 0 }
{
    let mut all = [0; SUMS];
    sums.copy_to_slice(&mut all);
    all
}

/// What a sum modulo 256 is more than another, where that is a number from -128 to 127.
#[inline(always)]
fn difference(sum: u8, other: u8) -> i32
    ensures { result ≡ signed_byte (sum + (256 - other)) }
{
    i32::from(sum.wrapping_sub(other).wrapping_add(128)) - 128
}
