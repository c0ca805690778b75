//! The half chips of a code at which samples lie.

ghost use Rattle.std.specs.Prelude.{◌≡◌, ◌+◌, ◌-◌, ◌*◌, ◌/◌, ◌%◌, ◌<◌, ◌≤◌, ◌^◌, ℕ};
ghost use Rattle.definitions.specs.Oscillators.{code_cycle, code_phase_after};
ghost use Rattle.acquisition.specs.declared.half_chip_table.TheConstants.{HALF_CHIPS};
ghost use Rattle.acquisition.specs.declared.half_chip_walk.TheConstants.{HALF_CHIP};

use oscillators::in_cycle;

/// Half a chip, in 2^-32 chip.
const HALF_CHIP: u64 = oscillators::HALF_CHIP as u64;

/// A walk from sample to sample along the half chips of a code. It stands at a half chip while it
/// passes the samples that lie there, and knows how many of them are left.
#[derive(Clone, Copy, Debug)]
pub(crate) struct HalfChipWalk {
    /// The half chip at which the next sample lies.
    pub(crate) place: usize,
    /// How many samples lie there from the next one on.
    pub(crate) left: usize,
    /// The code's phase at the sample after them, in 2^-32 chip.
    next: u64,
    /// How far a sample takes the code.
    step: u64,
    /// How many whole steps there are in a half chip. The samples at a half chip are as many or one
    /// more, or else one.
    whole: usize,
    /// How far these take the code.
    whole_way: u64,
    ghost inside: { place < HALF_CHIPS },
    ghost some: { 0 < left },
    ghost cycle: { next < code_cycle },
    ghost moving: { 0 < step },
    ghost slow: { step < 2 ^ 32 },
    ghost most: { whole ≡ HALF_CHIP / step },
    ghost way: { whole_way ≡ whole * step },

    // The sample before lies at an earlier half chip.
    ghost first: { next % HALF_CHIP < step },
}

impl HalfChipWalk {
    ghost use Rattle.acquisition.specs.Walks.{IsAt};

    /// A walk along samples, the next of which is at phase `code` of the code. Each takes the code
    /// `step` on.
    pub(crate) fn new(code: u64, step: u32) -> HalfChipWalk
        requires code { code < code_cycle }
        requires moving { 0 < step }
        ensures { IsAt code step result }
    {
        let step = u64::from(step);
        let whole = HALF_CHIP / step;
        let left = (HALF_CHIP - code % HALF_CHIP).div_ceil(step);
        HalfChipWalk {
            place: (code / HALF_CHIP) as usize,
            left: left as usize,
            next: in_cycle(code + left * step),
            step,
            whole: whole as usize,
            whole_way: whole * step,
        }
    }

    /// Passes so many of the samples that are left at the half chip.
    #[inline(always)]
    pub(crate) fn pass(&mut self, len: usize)
        requires { len ≤ self.old.left }
        ensures { (phase step : ℕ) → IsAt phase step self.old
            → IsAt (code_phase_after phase step len) step self.new }
    {
        if len < self.left {
            self.left -= len;
        } else {
            self.go_on();
        }
    }

    /// Goes on to the next half chip at which samples lie.
    #[inline(always)]
    fn go_on(&mut self)
        ensures { IsAt self.old.next self.old.step self.new }
    {
        let place = self.next / HALF_CHIP;
        self.place = place as usize;
        let far = self.next + self.whole_way;
        if far / HALF_CHIP == place {
            self.left = self.whole + 1;
            self.next = in_cycle(far + self.step);
        } else {
            self.left = self.whole;
            self.next = in_cycle(far);
        }
    }
}
