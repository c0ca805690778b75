//! The oscillator at the rate of the code.

ghost use Rattle.std.specs.Prelude.{◌≡◌, ◌+◌, ◌-◌, ◌*◌, ◌/◌, ◌%◌, ◌<◌, ◌≤◌, ℕ};
ghost use Rattle.std.specs.Prelude.{pos};
ghost use Rattle.std.specs.Prelude.{map, length, get_or, unsigned_abs};
ghost use Rattle.std.specs.List.{range_with_len};
ghost use Rattle.definitions.specs.Oscillators.{code_cycle, code_phase_after, early_sign};
ghost use Rattle.definitions.specs.Oscillators.{prompt_sign, late_sign};
ghost use Rattle.definitions.specs.Samples.{sign_of};
ghost use Rattle.bit_planes.specs.Bits.{bit};
ghost use Rattle.oscillators.specs.Views.{Oscillation, CodeViews};
ghost use Rattle.oscillators.specs.Signs.{sign_in};
ghost use Rattle.bit_planes.specs.declared.plane.TheConstants.{PLACES};
ghost use Rattle.ca_codes.specs.declared.book.TheConstants.{CODE_CHIPS};
ghost use Rattle.oscillators.specs.declared.code.TheConstants.{CODE_CYCLE};
ghost use Rattle.oscillators.specs.declared.code_strides.TheConstants.{HALF_CHIP};

use crate::code_strides::{CodeStrides, HALF_CHIP};
use crate::code_words::CodeWords;
use crate::half_chip::HalfChip;
use bit_planes::{PLACES, Plane};
use ca_codes::{CODE_CHIPS, CodeBook, Prn};
use std::marker::Model;

/// The code's cycle of 1,023 chips (IS-GPS-200, section 3.3.2.3), in 2^-32 chip.
pub const CODE_CYCLE: u64 = (CODE_CHIPS as u64) << 32;

/// An oscillator at the code's rate. Its phase is in 2^-32 chip, from 0 to below the cycle of
/// 1,023 * 2^32 (IS-GPS-200, section 3.3.2.3: the code has 1,023 chips); its step is what a sample
/// adds to it. The fixed-point form is this project's own.
#[derive(Debug, Drop)]
pub struct CodeOsc {
    phase: u64,
    step: u32,
    strides: CodeStrides,
}

impl Model for CodeOsc {
    ghost use Rattle.std.specs.Prelude.{◌<◌};
    ghost use Rattle.definitions.specs.Oscillators.{code_cycle};
    ghost use Rattle.oscillators.specs.Views.{Oscillation};
    ghost use Rattle.oscillators.specs.Strides.{IsCodeStrides};

    ghost Value = { Oscillation };

    ghost view = { λ o. record { phase = o.phase; step = o.step } };

    ghost invariant = { λ o. (o.phase < code_cycle) × IsCodeStrides o.step o.strides };
}

impl CodeOsc {
    /// An oscillator at the beginning of a half chip.
    #[inline(never)]
    pub fn new(start: HalfChip, step: u32) -> CodeOsc
        ensures { result ≡ record { phase = start * HALF_CHIP; step = step } }
    {
        CodeOsc {
            phase: start.get() as u64 * HALF_CHIP as u64,
            step,
            strides: CodeStrides::new(step),
        }
    }

    /// The phase at this sample, in 2^-32 chip: 0 to below 1,023 * 2^32.
    pub fn phase(&self) -> u64
        ensures value { result ≡ self.now.phase }
        ensures in_cycle { result < code_cycle }
    {
        self.phase
    }

    /// Takes another step from here on. It stays a call: it is long, and not done often.
    #[inline(never)]
    pub fn set_step(&mut self, step: u32)
        ensures { self.new ≡ record self.old { step = step } }
    {
        self.step = step;
        self.strides = CodeStrides::new(step);
    }

    /// The least number of samples, at least 1, that brings the phase to the end of the cycle or
    /// past it. The step isn't 0.
    pub fn to_wrap(&self) -> u64
        requires { 0 < self.now.step }
        ensures at_least_one { 0 < result }
        ensures through { code_cycle ≤ self.now.phase + result * self.now.step }
        ensures least { (k : ℕ) → k < result → self.now.phase + k * self.now.step < code_cycle }
    {
        (CODE_CYCLE - self.phase).div_ceil(self.step as u64)
    }

    /// Goes on by `n` samples, at most `to_wrap()`. The step isn't 0. At the end of the cycle the
    /// code begins again.
    pub fn advance(&mut self, n: u64)
        requires moving { 0 < self.old.step }

        // So n is at most `to_wrap()`.
        requires within { self.old.phase + (n - 1) * self.old.step < code_cycle }
        ensures { self.new
            ≡ record self.old { phase = code_phase_after self.old.phase self.old.step n } }
    {
        self.phase = in_cycle(self.phase + n * self.step as u64);
    }

    /// Goes on by any number of samples, through as many cycles as they take.
    pub fn jump(&mut self, n: u64)
        ensures { self.new
            ≡ record self.old { phase = code_phase_after self.old.phase self.old.step n } }
    {
        let phase = self.phase as u128 + n as u128 * self.step as u128;
        self.phase = (phase % CODE_CYCLE as u128) as u64;
    }

    /// The code in words of 64 samples, from `before` samples ago on, at most 1,023, if it has had
    /// this step since.
    pub fn words(&self, before: u32) -> CodeWords<'_>
        requires { before ≤ CODE_CHIPS }
        ensures now { code_phase_after result.phase result.step before ≡ self.now.phase }
        ensures step { result.step ≡ self.now.step }
    {
        let phase = in_cycle(self.phase + (CODE_CYCLE - before as u64 * self.step as u64));
        CodeWords::new(phase, self.step, &self.strides)
    }

    /// The signs of a satellite's chips at this sample and the `n` - 1 that follow: at the phase
    /// (prompt), half a chip ahead of it (early) and half a chip behind it (late); `n` is at most
    /// 1,024. The code goes round as often as the samples take it round. The oscillator stays where
    /// it is, and the book stands for the codes as before.
    pub fn planes(&self, n: usize, book: &mut CodeBook, prn: Prn) -> CodePlanes
        requires { n ≤ PLACES }
        ensures early_len { length result.early ≡ n }
        ensures prompt_len { length result.prompt ≡ n }
        ensures late_len { length result.late ≡ n }
        ensures early { result.early ≡ map (λ j. early_sign prn
            (code_phase_after self.now.phase self.now.step j)) (range_with_len 0 n) }
        ensures prompt { result.prompt
            ≡ map (λ j. prompt_sign prn (code_phase_after self.now.phase self.now.step j))
            (range_with_len 0 n) }
        ensures late { result.late ≡ map (λ j. late_sign prn
            (code_phase_after self.now.phase self.now.step j)) (range_with_len 0 n) }
    {
        prove!(n <= PLACES, "CodeOsc::planes requires n <= PLACES");
        let table = book.table(prn);
        let mut words = self.words(0);
        let mut early = Plane::new();
        let mut prompt = Plane::new();
        let mut late = Plane::new();
        for w in 0..(n + 63) / 64 {
            let word = words.next_chips(table);
            early.set_word(w, word.early);
            prompt.set_word(w, word.prompt);
            late.set_word(w, word.late);
        }
        CodePlanes {
            early,
            prompt,
            late,
            len: n,
        }
    }
}

/// The phase of a code, in 2^-32 chip, that is left of one below two cycles, without a division.
#[inline(always)]
pub fn in_cycle(phase: u64) -> u64
    requires { phase < 2 * CODE_CYCLE }
    ensures { result ≡ phase % code_cycle }
{
    if phase < CODE_CYCLE {
        phase
    } else {
        phase - CODE_CYCLE
    }
}

/// The signs of a code's chips, +1 for 0 and -1 for 1, at a run of at most 1,024 samples: half a
/// chip ahead (early), in time (prompt) and half a chip behind (late).
#[derive(Drop)]
pub struct CodePlanes {
    early: Plane,
    prompt: Plane,
    late: Plane,
    len: usize,
}

impl Model for CodePlanes {
    ghost Value = { CodeViews };

    ghost view = { λ p. record {
      early = map (sign_in p.early)
          (range_with_len 0 p.len);
      prompt = map (sign_in p.prompt)
          (range_with_len 0 p.len);
      late = map (sign_in p.late) (range_with_len 0 p.len);
    } };

    ghost invariant = { λ p. p.len ≤ PLACES };
}

impl CodePlanes {
    /// How many samples there are: 0 to 1,024.
    pub fn len(&self) -> usize
        ensures early { result ≡ length self.now.early }
        ensures prompt { result ≡ length self.now.prompt }
        ensures late { result ≡ length self.now.late }
    {
        self.len
    }

    /// The sign of the early chip, half a chip ahead, at sample `i`, counted from 0: 1 or -1.
    pub fn early(&self, i: usize) -> i8
        requires { i < length self.now.early }
        ensures value { result ≡ get_or self.now.early i (pos 0) }
        ensures small { unsigned_abs result ≤ 1 }
    {
        sign(self.early.bit(i))
    }

    /// The sign of the chip at sample `i`, counted from 0: 1 or -1.
    pub fn prompt(&self, i: usize) -> i8
        requires { i < length self.now.prompt }
        ensures value { result ≡ get_or self.now.prompt i (pos 0) }
        ensures small { unsigned_abs result ≤ 1 }
    {
        sign(self.prompt.bit(i))
    }

    /// The sign of the late chip, half a chip behind, at sample `i`, counted from 0: 1 or -1.
    pub fn late(&self, i: usize) -> i8
        requires { i < length self.now.late }
        ensures value { result ≡ get_or self.now.late i (pos 0) }
        ensures small { unsigned_abs result ≤ 1 }
    {
        sign(self.late.bit(i))
    }
}

/// The sign of a chip: +1 for 0, -1 for 1.
fn sign(chip: u64) -> i8
    requires { chip < 2 }
    ensures value { result ≡ sign_of chip }
    ensures small { unsigned_abs result ≤ 1 }
{
    if chip == 0 { 1 } else { -1 }
}
