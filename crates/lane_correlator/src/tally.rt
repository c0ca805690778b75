//! Six sums while they are added up.

ghost use Rattle.std.specs.Prelude.{◌≡◌, ◌+◌, ◌*◌, ◌≤◌, ℕ};
ghost use Rattle.definitions.specs.Correlation.{no_counts};
ghost use Rattle.oscillators.specs.Lanes.{HasAllLanes};
ghost use Rattle.lane_correlator.specs.Bytes.{AreAtMost};
ghost use Rattle.lane_correlator.specs.ByteSums.{HasLanes};
ghost use Rattle.lane_correlator.specs.Chips.{AreMasksOfChips};
ghost use Rattle.lane_correlator.specs.Counting.{counts_in, AreWithin};
ghost use Rattle.lane_correlator.specs.declared.lane_sums.TheConstants.{MOST_OF_LANES};
ghost use Rattle.lane_correlator.specs.declared.tally.TheConstants.{MOST_OF_LANE};

use crate::counts::Counts;
use crate::lane_sums::LaneSums;
use crate::wiped::Wiped;
use oscillators::ChipLanes;

/// The most that a lane may come to, so that its sum fits in a byte with a sign.
pub(crate) const MOST_OF_LANE: u32 = 127;

/// Six sums while they are added up, in lanes of bytes.
///
/// A sum with chips is that of all products, less twice those whose chips are -1.
#[derive(Clone, Copy, Debug)]
pub(crate) struct Tally {
    /// All products.
    all: LaneSums,
    /// The products whose early chips are -1.
    early: LaneSums,
    /// The products whose prompt chips are -1.
    prompt: LaneSums,
    /// The products whose late chips are -1.
    late: LaneSums,
}

impl Tally {
    ghost use Rattle.lane_correlator.specs.Tallies.{tally_in, AreAllLow, AddsWord};

    /// The sums over no samples.
    #[inline(always)]
    pub(crate) fn none() -> Tally
        ensures sums { tally_in result ≡ no_counts }
        ensures low { AreAllLow 0 result }
    {
        Tally {
            all: LaneSums::none(),
            early: LaneSums::none(),
            prompt: LaneSums::none(),
            late: LaneSums::none(),
        }
    }

    /// Adds the products of the samples of a word with three kinds of chips. A lane takes two of
    /// them, and may come to `MOST_OF_LANE`.
    #[inline(always)]
    pub(crate) fn add(self, wiped: Wiped, chips: ChipLanes) -> Tally
        requires wiped { HasLanes wiped }
        requires lanes { HasAllLanes chips }
        requires masks { AreMasksOfChips chips }
        ensures { (n most : ℕ) → n + 2 * most ≤ MOST_OF_LANE → AreAllLow n self
            → AreAtMost most wiped.i → AreAtMost most wiped.q
            → AddsWord (n + 2 * most) wiped chips self result }
    {
        Tally {
            all: self.all.add(wiped.i, wiped.q),
            early: self.early.add(wiped.i & chips.early, wiped.q & chips.early),
            prompt: self
                .prompt
                .add(wiped.i & chips.prompt, wiped.q & chips.prompt),
            late: self.late.add(wiped.i & chips.late, wiped.q & chips.late),
        }
    }

    /// The sums.
    #[inline(always)]
    pub(crate) fn counts(&self) -> Counts
        ensures sums { counts_in result ≡ tally_in self.now }
        ensures small { AreWithin MOST_OF_LANES (counts_in result) }
    {
        Counts {
            ie: self.all.in_phase(&self.early),
            qe: self.all.quadrature(&self.early),
            ip: self.all.in_phase(&self.prompt),
            qp: self.all.quadrature(&self.prompt),
            il: self.all.in_phase(&self.late),
            ql: self.all.quadrature(&self.late),
        }
    }
}
