//! The words with which a slot begins to search for a satellite.

ghost use Rattle.std.specs.Prelude.{◌≡◌, length};
ghost use Rattle.definitions.specs.Scripts.{plan_ranges, values_in};
ghost use Rattle.client_commands.specs.Reading.{values_of_plan};

use crate::refusal::LineRefusal;
use crate::words::Words;
use acquisition::{MOST_DWELL, MOST_SIDE_BINS, MOST_THRESHOLD, Plan};

/// The plan of five words: satellite, centre, bins, dwell and threshold.
pub(crate) fn read_plan(words: &mut Words<'_>) -> Result<Plan, LineRefusal>
    requires { length words.old ≡ length plan_ranges }
    ensures { values_of_plan result ≡ values_in plan_ranges words.old }
{
    let prn = words.prn()?;
    let centre = words.centre()?;
    let bins = words.number_between(0, MOST_SIDE_BINS)?;
    let dwell = words.number_between(1, MOST_DWELL)?;
    let threshold = words.number_between(1, MOST_THRESHOLD)?;
    // Values that are each in their range are always a plan.
    Plan::new(prn, centre, bins, dwell, threshold).or(Err(LineRefusal::OutOfRange))
}
