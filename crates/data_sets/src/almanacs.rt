//! The sets of almanacs.

ghost use Rattle.std.specs.Prelude.{◌≡◌, List, [], ◌∷◌, ◌++◌, option_map};
ghost use Rattle.definitions.specs.Pages.{almanac, Page as DefinedPage};
ghost use Rattle.definitions.specs.DataSets.{almanac_set, almanac_sets, new_set};
ghost use Rattle.subframes.specs.PageViews.{page_in};
ghost use Rattle.data_sets.specs.Reports.{almanacs_in};
ghost use Rattle.data_sets.specs.Standing.{last_almanacs, page_with};

use crate::almanac_set::{AlmanacSet, SATELLITES};
use subframes::{AlmanacField, FIELDS_OF_ALMANAC, Page};

/// Where the number of the satellite stands among the numbers of an almanac.
const SV: usize = AlmanacField::Sv as usize;

/// The last almanac of each of the satellites 1 to 32, and those of the set that was reported last.
#[derive(Debug, Drop)]
pub struct Almanacs {
    last: [Option<[i64; FIELDS_OF_ALMANAC]>; SATELLITES],
    reported: [Option<[i64; FIELDS_OF_ALMANAC]>; SATELLITES],
}

impl Almanacs {
    ghost use Rattle.data_sets.specs.Standing.{FollowsAlmanacs};

    /// The almanacs of no pages.
    pub fn new() -> Self
        ensures { FollowsAlmanacs [] result }
    {
        Almanacs {
            last: [None; SATELLITES],
            reported: [None; SATELLITES],
        }
    }

    /// Takes the next page, of whatever kind, and gives the set that is reported with it.
    pub fn take(&mut self, page: &Page) -> Option<AlmanacSet>
        ensures follows { (pages : List DefinedPage) → FollowsAlmanacs pages self.old
            → FollowsAlmanacs (pages ++ page_in page.now ∷ []) self.new }
        ensures set { (pages : List DefinedPage) → FollowsAlmanacs pages self.old
            → option_map almanacs_in result
            ≡ option_map almanac_set (new_set almanac_sets (pages ++ page_in page.now ∷ [])) }
    {
        let Page::Almanac(numbers) = page else {
            return None;
        };
        self.keep(numbers);
        let set = AlmanacSet::of(&self.last)?;
        if self.last == self.reported {
            return None;
        }
        self.reported = self.last;
        Some(set)
    }

    /// Keeps an almanac as the last of its satellite, if that is one of 1 to 32.
    fn keep(&mut self, numbers: &[i64; FIELDS_OF_ALMANAC])
        ensures last { (pages : List DefinedPage) → self.old.last ≡ last_almanacs pages
            → self.new.last ≡ last_almanacs (pages ++ page_with almanac numbers.now ∷ []) }
        ensures reported { self.new.reported ≡ self.old.reported }
    {
        let sv = numbers[SV];
        if 1 <= sv && sv <= SATELLITES as i64 {
            self.last[sv as usize - 1] = Some(*numbers);
        }
    }
}
