//! Each field by its name.

ghost use Rattle.std.specs.Prelude.{◌≡◌, ◌<◌, IsTrue, length};
ghost use Rattle.definitions.specs.Fields.{place_of};
ghost use Rattle.definitions.specs.Pages.{fields_of};
ghost use Rattle.subframes.specs.Entries.{entry_of, kind_with, name_of};
ghost use Rattle.subframes.specs.Layouts.{layout_in, is_readable};
ghost use Rattle.subframes.specs.PageViews.{kind_in};

use crate::almanac::AlmanacField;
use crate::clock::ClockField;
use crate::ephemeris::{Eph2Field, Eph3Field};
use crate::health::HealthField;
use crate::kind::Kind;
use crate::layout::Layout;
use crate::utc::UtcField;

/// A field of the message, by the table that it stands in (IS-GPS-200, sections 20.3.3.3 to
/// 20.3.3.5). Its number times two to the power of [`Field::exponent`] is its value, in the unit
/// that its variant names.
#[derive(Clone, Copy, Debug, PartialEq, Eq)]
pub enum Field {
    /// Subframe 1, the clock (section 20.3.3.3.1).
    Clock(ClockField),
    /// Subframe 2, the first part of the ephemeris (section 20.3.3.4.1).
    Eph2(Eph2Field),
    /// Subframe 3, the second part of the ephemeris (section 20.3.3.4.1).
    Eph3(Eph3Field),
    /// An almanac (section 20.3.3.5.1.2).
    Almanac(AlmanacField),
    /// The ionosphere and coordinated universal time (sections 20.3.3.5.1.6 and 20.3.3.5.1.7).
    Utc(UtcField),
    /// The health of satellites 1 to 24 (section 20.3.3.5.1.3).
    Health(HealthField),
}

impl Field {
    /// The field's name within its table, as `tgd`.
    #[must_use]
    pub fn name(self) -> &'static str
        ensures name { result.now ≡ name_of self }
        ensures entry { result.now ≡ (entry_of self).name }
    {
        self.layout().name
    }

    /// The power of two that is the field's scale factor: 0 where it is counted in its own unit.
    #[must_use]
    pub fn exponent(self) -> i8
        ensures { result ≡ (entry_of self).exponent }
    {
        self.layout().exponent
    }

    /// The kind of the pages that have the field.
    pub(crate) fn kind(self) -> Kind
        ensures { kind_in result ≡ kind_with self }
    {
        match self {
            Field::Clock(_) => Kind::Clock,
            Field::Eph2(_) => Kind::Eph2,
            Field::Eph3(_) => Kind::Eph3,
            Field::Almanac(_) => Kind::Almanac,
            Field::Utc(_) => Kind::Utc,
            Field::Health(_) => Kind::Health,
        }
    }

    /// The field's place among the fields of its kind, from 0.
    #[tactic(auto, using(crate::proofs::Written::place), unfolding(crate::specs::Entries::name_of))]
    pub(crate) fn place(self) -> usize
        ensures place { result ≡ place_of (name_of self) (fields_of (kind_with self)) }
        ensures within { result < length (fields_of (kind_with self)) }
    {
        match self {
            Field::Clock(field) => field as usize,
            Field::Eph2(field) => field as usize,
            Field::Eph3(field) => field as usize,
            Field::Almanac(field) => field as usize,
            Field::Utc(field) => field as usize,
            Field::Health(field) => field as usize,
        }
    }

    /// The field's line of its table.
    #[tactic(auto, unfolding(crate::specs::Entries::entry_of, crate::specs::Entries::name_of))]
    pub(crate) fn layout(self) -> Layout
        ensures name { result.name.now ≡ name_of self }
        ensures entry { layout_in result ≡ entry_of self }
        ensures readable { IsTrue (is_readable (layout_in result)) }
    {
        match self {
            Field::Clock(field) => field.layout(),
            Field::Eph2(field) => field.layout(),
            Field::Eph3(field) => field.layout(),
            Field::Almanac(field) => field.layout(),
            Field::Utc(field) => field.layout(),
            Field::Health(field) => field.layout(),
        }
    }
}
