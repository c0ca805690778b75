//! Laws of what is printed: the lines of the whole text, whatever the settings, the samples and the
//! clients are.

ghost use Rattle.definitions.specs.PrintedLaws.{LinesComeFromEvents, PrintedCountsAreSums};
ghost use Rattle.definitions.specs.PrintedLaws.{PrintedAcquisitionsNameTheGreatest};
ghost use Rattle.definitions.specs.PrintedLaws.{PrintedWordsPass, PrintedPagesPass};
ghost use Rattle.definitions.specs.PrintedLaws.{PrintedAlmanacsAgree, LinesAreShort};
ghost use Rattle.definitions.specs.DistinctLaws.{LinesAreDistinct};

/// Each line of the whole text is that of an event that a slot emits, or that of an answer, or an
/// end.
pub fn lines_come_from_events()
    ensures { LinesComeFromEvents }
{}

/// Each count that is printed is that of a dump, the plain sums over just its samples.
pub fn printed_counts_are_sums()
    ensures { PrintedCountsAreSums }
{}

/// Each acquisition that is printed names the first greatest cell of its plan, and is found exactly
/// at the threshold.
pub fn printed_acquisitions_name_the_greatest()
    ensures { PrintedAcquisitionsNameTheGreatest }
{}

/// Each data word that is shown passes with the two bits before it.
pub fn printed_words_pass()
    ensures { PrintedWordsPass }
{}

/// Each page that is printed comes from the last ten words, which all pass. Each set of clock and
/// ephemeris comes from such pages too, the last of their kinds, and is of one issue of data.
pub fn printed_pages_pass()
    ensures { PrintedPagesPass }
{}

/// Each set of almanacs that is printed has the last almanac of each satellite, all of one time of
/// applicability.
pub fn printed_almanacs_agree()
    ensures { PrintedAlmanacsAgree }
{}

/// Each line has at most 1,024 bytes.
pub fn lines_are_short()
    ensures { LinesAreShort }
{}

/// No two clients, times, slots or events have one line, where their numbers have at most 64 bits.
/// So what the laws above say of an event with a line is said of the line.
pub fn lines_are_distinct()
    ensures { LinesAreDistinct }
{}
