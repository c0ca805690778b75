//! All that a page makes reported.

use crate::almanac_set::AlmanacSet;
use crate::report::Report;

/// What a page makes reported: a report of its own, and perhaps the almanacs of all satellites
/// after it.
#[derive(Clone, Copy, Debug, PartialEq, Eq)]
pub struct Reports {
    /// The page itself, or the set of clock and ephemeris that it completes.
    pub page: Option<Report>,
    /// The almanacs of all satellites, where the page completes or changes them.
    pub set: Option<AlmanacSet>,
}

impl Reports {
    /// No report, and no set of almanacs.
    pub const NONE: Reports = Reports {
        page: None,
        set: None,
    };
}
