//! The oscillator at the frequency of the carrier.

ghost use Rattle.std.specs.Prelude.{◌≡◌, ◌+◌, ◌<◌, ◌≤◌, ◌/◌, pos, map};
ghost use Rattle.std.specs.Prelude.{length, get_or, unsigned_abs};
ghost use Rattle.std.specs.List.{range_with_len};
ghost use Rattle.definitions.specs.Oscillators.{carrier_phase_after, cosine, sine};
ghost use Rattle.bit_planes.specs.Bits.{bit};
ghost use Rattle.oscillators.specs.Views.{Oscillation, CarrierViews};
ghost use Rattle.oscillators.specs.Signs.{signed, cos_in, sin_in};
ghost use Rattle.bit_planes.specs.declared.plane.TheConstants.{PLACES};

use crate::carrier_strides::CarrierStrides;
use crate::carrier_words::CarrierWords;
use bit_planes::{PLACES, Plane};
use sample_planes::MOST_SIZE;
use std::marker::Model;

/// The greatest size of the product of a sample and a carrier, in phase or in quadrature: each part
/// of a sample is at most `MOST_SIZE` in size, and of the two carriers one is 1 in size and the
/// other 2.
pub const MOST_PRODUCT: u32 = 3 * MOST_SIZE as u32;

/// An oscillator at the carrier's frequency. Its phase is in 2^-32 cycle, from 0 to below 2^32, and
/// its step is what a sample adds to it. The fixed-point form and the values of `planes` are this
/// project's own.
#[derive(Debug, Drop)]
pub struct CarrierOsc {
    phase: u32,
    step: u32,
    strides: CarrierStrides,
}

impl Model for CarrierOsc {
    ghost use Rattle.oscillators.specs.Views.{Oscillation};
    ghost use Rattle.oscillators.specs.Strides.{IsCarrierStrides};

    ghost Value = { Oscillation };

    ghost view = { λ o. record { phase = o.phase; step = o.step } };

    ghost invariant = { λ o. IsCarrierStrides o.step o.strides };
}

impl CarrierOsc {
    /// An oscillator at phase 0.
    #[inline(never)]
    pub fn new(step: u32) -> CarrierOsc
        ensures { result ≡ record { phase = 0; step = step } }
    {
        CarrierOsc {
            phase: 0,
            step,
            strides: CarrierStrides::new(step),
        }
    }

    /// Goes on by `n` samples.
    pub fn advance(&mut self, n: u64)
        ensures { self.new
            ≡ record self.old { phase = carrier_phase_after self.old.phase self.old.step n } }
    {
        // 2^32 samples add whole cycles, whatever the step, and so nothing.
        let turns = (n % (1 << 32)) as u32;
        self.phase = self.phase.wrapping_add(turns.wrapping_mul(self.step));
    }

    /// The carrier in words of 64 samples, from `before` samples ago on, if it has had this step
    /// since.
    pub fn words(&self, before: u32) -> CarrierWords<'_>
        ensures now { carrier_phase_after result.phase result.step before ≡ self.now.phase }
        ensures step { result.step ≡ self.now.step }
    {
        let phase = self.phase.wrapping_sub(before.wrapping_mul(self.step));
        CarrierWords::new(phase, self.step, &self.strides)
    }

    /// Takes another step from here on. It stays a call: it is long, and not done often.
    #[inline(never)]
    pub fn set_step(&mut self, step: u32)
        ensures { self.new ≡ record self.old { step = step } }
    {
        self.step = step;
        self.strides = CarrierStrides::new(step);
    }

    /// Cosine and sine at this sample and the `n` - 1 that follow; `n` is at most 1,024. The
    /// oscillator stays where it is.
    pub fn planes(&self, n: usize) -> CarrierPlanes
        requires { n ≤ PLACES }
        ensures cos_len { length result.cos ≡ n }
        ensures sin_len { length result.sin ≡ n }
        ensures cos { result.cos ≡ map (λ j. cosine
            (carrier_phase_after self.now.phase self.now.step j)) (range_with_len 0 n) }
        ensures sin { result.sin ≡ map (λ j. sine
            (carrier_phase_after self.now.phase self.now.step j)) (range_with_len 0 n) }
    {
        prove!(n <= PLACES, "CarrierOsc::planes requires n <= PLACES");
        let mut words = self.words(0);
        let mut cos_sign = Plane::new();
        let mut sin_sign = Plane::new();
        let mut sin_size = Plane::new();
        for w in 0..(n + 63) / 64 {
            let word = words.next_bits();
            cos_sign.set_word(w, word.cos_sign);
            sin_sign.set_word(w, word.sin_sign);
            sin_size.set_word(w, word.sin_size);
        }
        CarrierPlanes {
            cos_sign,
            sin_sign,
            sin_size,
            len: n,
        }
    }
}

/// Cosine and sine of a carrier at a run of at most 1,024 samples.
#[derive(Drop)]
pub struct CarrierPlanes {
    /// 1 where the cosine is below 0, and where the sine is.
    cos_sign: Plane,
    sin_sign: Plane,
    /// 1 where the sine is 2 in size and the cosine 1, and 0 where it is the other way round.
    sin_size: Plane,
    len: usize,
}

impl Model for CarrierPlanes {
    ghost Value = { CarrierViews };

    ghost view = { λ p. record {
      cos = map (cos_in p.cos_sign p.sin_size)
          (range_with_len 0 p.len);
      sin = map (sin_in p.sin_sign p.sin_size)
          (range_with_len 0 p.len);
    } };

    ghost invariant = { λ p. p.len ≤ PLACES };
}

impl CarrierPlanes {
    /// How many samples there are: 0 to 1,024.
    pub fn len(&self) -> usize
        ensures cos { result ≡ length self.now.cos }
        ensures sin { result ≡ length self.now.sin }
    {
        self.len
    }

    /// The cosine at sample `i`, counted from 0: 1 or 2 in size.
    pub fn cos(&self, i: usize) -> i8
        requires { i < length self.now.cos }
        ensures value { result ≡ get_or self.now.cos i (pos 0) }
        ensures small { unsigned_abs result ≤ 2 }
    {
        signed(self.cos_sign.bit(i), 1 - self.sin_size.bit(i))
    }

    /// The sine at sample `i`, counted from 0: 1 or 2 in size.
    pub fn sin(&self, i: usize) -> i8
        requires { i < length self.now.sin }
        ensures value { result ≡ get_or self.now.sin i (pos 0) }
        ensures small { unsigned_abs result ≤ 2 }
    {
        signed(self.sin_sign.bit(i), self.sin_size.bit(i))
    }
}

/// A number that is 1 or 2 in size, from the bits of its sign and its size.
fn signed(sign: u64, size: u64) -> i8
    requires sign { sign < 2 }
    requires size { size < 2 }
    ensures value { result ≡ signed sign size }
    ensures small { unsigned_abs result ≤ 2 }
{
    let value = if size == 0 { 1 } else { 2 };
    if sign == 0 { value } else { -value }
}
