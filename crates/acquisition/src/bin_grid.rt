//! The powers of the cells of a bin, for those who look at all of them.

ghost use Rattle.std.specs.Prelude.{◌≡◌, ◌≤◌, ◌<◌, ◌+◌, ◌*◌, ℕ, List, get_or};
ghost use Rattle.definitions.specs.Samples.{Sample};
ghost use Rattle.definitions.specs.Acquisition.{power_of, dwell_end};
ghost use Rattle.sample_planes.specs.Sources.{AreSamplesOf};
ghost use Rattle.sample_planes.specs.declared.planes.TheConstants.{MOST_TIME};
ghost use Rattle.acquisition.specs.declared.plan.TheConstants.{BIN_CELLS};

use crate::bin_powers::BinPowers;
use crate::bin_steps::BinSteps;
use crate::dwell::Dwell;
use crate::ones::Ones;
use crate::plan::{BIN_CELLS, Plan};
use ca_codes::CodeBook;
use oscillators::Settings;
use sample_planes::SampleSource;

/// The powers of the cells of bin number `k` of a plan, the lowest shift first, by half chips: over
/// the dwell that begins with sample `start`, at most `MOST_TIME`. A `Search` of the plan does the
/// same cells, and names the first greatest one. The book is any book of codes.
pub fn powers_of_bin<S: SampleSource>(
    plan: &Plan,
    settings: &Settings,
    start: u64,
    k: usize,
    source: &S,
    book: &mut CodeBook,
) -> [u64; BIN_CELLS]
    requires start { start ≤ MOST_TIME }
    requires bin { k ≤ 2 * plan.now.bins }
    requires from { S.from source.now ≤ start }
    requires to { dwell_end settings.now plan.now start ≤ S.to source.now }
    ensures { (xs : List Sample)
        → AreSamplesOf xs start (dwell_end settings.now plan.now start) (S.held source.now)
        → (i : ℕ) → i < BIN_CELLS
        → get_or result i 0 ≡ power_of settings.now plan.now xs start (k * BIN_CELLS + i) }
{
    let dwell = Dwell {
        start,
        periods: plan.dwell(),
        per_period: settings.per_ms(),
    };
    let ones = Ones::new(plan.prn(), book);
    let steps = BinSteps::new(plan, settings).bin(k);
    let mut powers = BinPowers::new();
    let work = BIN_CELLS * plan.dwell() as usize;
    powers.advance(work, &dwell, steps, &ones, source);
    powers.all()
}
