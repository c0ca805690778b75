//! The sets of clock and ephemeris.

ghost use Rattle.std.specs.Prelude.{◌≡◌, List, [], ◌∷◌, ◌++◌};
ghost use Rattle.definitions.specs.Pages.{Page as DefinedPage};
ghost use Rattle.definitions.specs.DataSets.{ephemerides, new_set, differing, later};
ghost use Rattle.subframes.specs.PageViews.{page_in};

use crate::last_pages::LastPages;
use subframes::{FIELDS_OF_EPHEMERIS, Page};

/// The last pages of which a set is made, and the set that was reported last.
#[derive(Debug, Drop)]
pub struct Ephemerides {
    last: LastPages,
    reported: Option<[i64; FIELDS_OF_EPHEMERIS]>,
}

impl Ephemerides {
    ghost use Rattle.data_sets.specs.Standing.{Follows};

    /// The state before the first page.
    pub fn new() -> Self
        ensures { Follows [] result }
    {
        Ephemerides {
            last: LastPages::new(),
            reported: None,
        }
    }

    /// Takes the next page, of whatever kind, and gives the set that is reported with it.
    pub fn take(&mut self, page: &Page) -> Option<[i64; FIELDS_OF_EPHEMERIS]>
        ensures follows { (pages : List DefinedPage) → Follows pages self.old
            → Follows (pages ++ page_in page.now ∷ []) self.new }
        ensures set { (pages : List DefinedPage) → Follows pages self.old
            → result ≡ new_set ephemerides (pages ++ page_in page.now ∷ []) }
    {
        if self.last.take(page) {
            let set = self.last.set();
            self.report(set)
        } else {
            None
        }
    }

    /// Gives the set that is there now, if one is, where it differs from the one reported last. It
    /// is the one reported last from then on.
    fn report(
        &mut self,
        set: Option<[i64; FIELDS_OF_EPHEMERIS]>,
    ) -> Option<[i64; FIELDS_OF_EPHEMERIS]>
        ensures set { result ≡ differing self.old.reported set }
        ensures reported { self.new.reported ≡ later self.old.reported result }
        ensures last { self.new.last ≡ self.old.last }
    {
        let set = set?;
        if self.reported == Some(set) {
            return None;
        }
        self.reported = Some(set);
        Some(set)
    }
}
