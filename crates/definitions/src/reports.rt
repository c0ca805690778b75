//! Laws of what a slot has to emit with a bit.

ghost use Rattle.definitions.specs.ReportLaws.{SubframesAreEmitted, ReportsComeWithSubframes};
ghost use Rattle.definitions.specs.ReportLaws.{PagesAreReported, EphemeridesAreReported};
ghost use Rattle.definitions.specs.ReportLaws.{AlmanacSetsAreReported, NewsIsEmitted};

/// A subframe is emitted once with its last bit, damaged or not, and the gap before it.
pub fn subframes_are_emitted()
    ensures { SubframesAreEmitted }
{}

/// No subframe, gap, page or set is emitted but with the last bit of a subframe.
pub fn reports_come_with_subframes()
    ensures { ReportsComeWithSubframes }
{}

/// An almanac, a UTC page, a health page and a message are reported each time.
pub fn pages_are_reported()
    ensures { PagesAreReported }
{}

/// A clock or ephemeris page has the set emitted that is there, if it isn't the one before.
pub fn ephemerides_are_reported()
    ensures { EphemeridesAreReported }
{}

/// An almanac has the set of all almanacs emitted, if it isn't the one before.
pub fn almanac_sets_are_reported()
    ensures { AlmanacSetsAreReported }
{}

/// What the loops answer with a dump is emitted once, and after it the edge of the bits.
pub fn news_is_emitted()
    ensures { NewsIsEmitted }
{}
