//! The almanacs of all satellites together.

ghost use Rattle.std.specs.Prelude.{◌≡◌, IfSome, option_map};
ghost use Rattle.std.specs.List.{AllByRecursion};
ghost use Rattle.definitions.specs.DataSets.{almanac_set};
ghost use Rattle.data_sets.specs.Reports.{almanacs_in};
ghost use Rattle.data_sets.specs.Standing.{IsWhole, almanac_values};

use subframes::{AlmanacField, FIELDS_OF_ALMANAC};

/// Where the time of applicability stands among the numbers of an almanac.
const TOA: usize = AlmanacField::Toa as usize;

/// Where the health stands among the numbers of an almanac.
const HEALTH: usize = AlmanacField::Health as usize;

/// The satellites that have an almanac: those of numbers 1 to 32 (IS-GPS-200, section 3.2.1.3).
pub const SATELLITES: usize = 32;

/// The almanacs of satellites 1 to 32, which are all for one time (IS-GPS-200, section
/// 20.3.3.5.1.2).
#[derive(Clone, Copy, Debug, PartialEq, Eq)]
pub struct AlmanacSet {
    /// The time of applicability, in units of 2^12 seconds.
    pub toa: i64,
    /// The health of each of the satellites, from number 1 on.
    pub health: [i64; SATELLITES],
}

impl AlmanacSet {
    /// The set of the almanacs of satellites 1 to 32, where all are there for one time.
    pub(crate) fn of(last: &[Option<[i64; FIELDS_OF_ALMANAC]>; SATELLITES]) -> Option<AlmanacSet>
        ensures set { option_map almanacs_in result
            ≡ option_map almanac_set (almanac_values last.now) }
        ensures whole { IfSome result (λ set. AllByRecursion IsWhole last.now) }
    {
        let toa = last[0]?[TOA];
        let mut health = [0; SATELLITES];
        for k in 0..SATELLITES {
            let almanac = &last[k]?;
            if almanac[TOA] != toa {
                return None;
            }
            health[k] = almanac[HEALTH];
        }
        Some(AlmanacSet { toa, health })
    }
}
