//! The powers of the cells of a bin.

ghost use Rattle.std.specs.Prelude.{◌≡◌, ◌+◌, ◌*◌, ◌%◌, ◌<◌, ◌≤◌, ℕ, get_or, length};
ghost use Rattle.acquisition.specs.Periods.{periods_of};
ghost use Rattle.acquisition.specs.declared.chip_ring.TheConstants.{CELLS_AT_ONCE};
ghost use Rattle.acquisition.specs.declared.plan.TheConstants.{BIN_CELLS, MOST_DWELL};
ghost use Rattle.acquisition.specs.declared.sums.TheConstants.{MOST_PERIOD_POWER};
ghost use Rattle.acquisition.specs.declared.tally.TheConstants.{MOST_POWER};

use crate::bin_steps::Steps;
use crate::chip_ring::CELLS_AT_ONCE;
use crate::dwell::Dwell;
use crate::ones::Ones;
use crate::period_sums::PeriodSums;
use crate::plan::BIN_CELLS;
use sample_planes::SampleSource;

/// The powers of a bin's cells so far. A period's powers are added one cell after another, and then
/// those of the next period; the sums of the period that is worked on are kept.
#[derive(Debug, Drop)]
pub(crate) struct BinPowers {
    powers: [u64; BIN_CELLS],
    /// How many powers over one period were added.
    added: usize,
    sums: PeriodSums,
    ghost few: { added ≤ BIN_CELLS * MOST_DWELL },
    ghost long: { length powers ≡ BIN_CELLS },
    ghost most: { (i : ℕ) → i < BIN_CELLS
        → get_or powers i 0 ≤ MOST_PERIOD_POWER * periods_of i added },
}

impl BinPowers {
    ghost use Rattle.definitions.specs.Samples.{Sample};
    ghost use Rattle.acquisition.specs.Powers.{AreSoFar};

    /// The powers over no period.
    pub(crate) fn new() -> BinPowers
        ensures powers { (x : ℕ → Sample) (prn long : ℕ) (steps : Steps)
            → AreSoFar x prn long steps result }
        ensures added { result.added ≡ 0 }
    {
        BinPowers {
            powers: [0; BIN_CELLS],
            added: 0,
            sums: PeriodSums::new(),
        }
    }

    /// Begins anew, with the powers over no period.
    pub(crate) fn clear(&mut self)
        ensures powers { (x : ℕ → Sample) (prn long : ℕ) (steps : Steps)
            → AreSoFar x prn long steps self.new }
        ensures added { self.new.added ≡ 0 }
    {
        self.powers = [0; BIN_CELLS];
        self.added = 0;
    }

    /// Adds powers over periods of a dwell, until there are `to`.
    pub(crate) fn advance<S: SampleSource>(
        &mut self,
        to: usize,
        dwell: &Dwell,
        steps: Steps,
        ones: &Ones,
        source: &S,
    )
        requires more { self.old.added ≤ to }
        requires to { to ≤ BIN_CELLS * dwell.now.periods }
        requires moving { 0 < steps.code }
        requires from { S.from source.now ≤ dwell.now.start }
        requires held { dwell.now.start + dwell.now.periods * dwell.now.per_period
            ≤ S.to source.now }
        ensures powers { (x : ℕ → Sample) → ((j : ℕ) → j < dwell.now.periods * dwell.now.per_period
            → S.held source.now (dwell.now.start + j) ≡ x j)
            → AreSoFar x ones.now.prn dwell.now.per_period steps self.old
            → AreSoFar x ones.now.prn dwell.now.per_period steps self.new }
        ensures added { self.new.added ≡ to }
    {
        while self.added < to {
            let cell = self.added % BIN_CELLS;
            if cell == 0 {
                let period = (self.added / BIN_CELLS) as u32;
                dwell.sum_up(period, steps, source, &mut self.sums);
            }
            let count = (to - self.added).min(BIN_CELLS - cell).min(CELLS_AT_ONCE);
            let powers = self.sums.powers(ones, cell);
            self.add(cell, count, &powers);
        }
    }

    /// Adds the first `count` of 64 powers over a period: those of `cell`, the next one, and of
    /// the cells after it.
    fn add(&mut self, cell: usize, count: usize, powers: &[u64; CELLS_AT_ONCE])
        requires cell { cell ≡ self.old.added % BIN_CELLS }
        requires within { cell + count ≤ BIN_CELLS }
        requires few { self.old.added + count ≤ BIN_CELLS * MOST_DWELL }
        requires lanes { count ≤ CELLS_AT_ONCE }
        requires most { (l : ℕ) → l < CELLS_AT_ONCE → get_or powers.now l 0 ≤ MOST_PERIOD_POWER }
        ensures powers { (l : ℕ) → l < count → get_or self.new.powers (cell + l) 0
            ≡ get_or self.old.powers (cell + l) 0 + get_or powers.now l 0 }
        ensures before { (i : ℕ) → i < cell
            → get_or self.new.powers i 0 ≡ get_or self.old.powers i 0 }
        ensures after { (i : ℕ) → cell + count ≤ i
            → get_or self.new.powers i 0 ≡ get_or self.old.powers i 0 }
        ensures added { self.new.added ≡ self.old.added + count }
        ensures sums { self.new.sums ≡ self.old.sums }
    {
        prove!(
            count <= CELLS_AT_ONCE && cell <= BIN_CELLS - count,
            "BinPowers::add requires at most CELLS_AT_ONCE powers, of cells of the bin"
        );
        self.added += count;
        for l in 0..count {
            self.powers[cell + l] += powers[l];
        }
    }

    /// The powers of all cells so far.
    pub(crate) fn all(&self) -> [u64; BIN_CELLS]
        ensures { result ≡ self.now.powers }
    {
        self.powers
    }

    /// The power of cell `i` so far.
    pub(crate) fn power(&self, i: usize) -> u64
        requires { i < BIN_CELLS }
        ensures value { result ≡ get_or self.now.powers i 0 }
        ensures most { result ≤ MOST_POWER }
    {
        self.powers[i]
    }
}
