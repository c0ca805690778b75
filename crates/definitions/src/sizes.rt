//! Laws of numbers of every size.

ghost use Rattle.definitions.specs.SizeLaws.{NextDumpsArePrinted, StatesCountAllDumps};
ghost use Rattle.definitions.specs.SizeLaws.{CellsGoByBins};

/// After `counts` with a number just so many dumps are printed.
pub fn next_dumps_are_printed()
    ensures { NextDumpsArePrinted }
{}

/// The answer to `state` has the number of all dumps so far.
pub fn states_count_all_dumps()
    ensures { StatesCountAllDumps }
{}

/// Each bin has 2,046 half chips, and bins are 250 Hz apart, however many there are.
pub fn cells_go_by_bins()
    ensures { CellsGoByBins }
{}
