//! The words of the almanacs of all satellites.

ghost use Rattle.std.specs.Prelude.{◌≡◌, ◌++◌, ◌+◌, ◌*◌};
ghost use Rattle.std.specs.Fmt.{signed_decimal};
ghost use Rattle.definitions.specs.Events.{almanacs};
ghost use Rattle.definitions.specs.Texts.{event_text};
ghost use Rattle.data_sets.specs.Reports.{almanacs_in};
ghost use Rattle.data_sets.specs.declared.almanac_set.TheConstants.{SATELLITES};
ghost use Rattle.printed_lines.specs.Room.{HasRoom, TakesUp};
ghost use Rattle.printed_lines.specs.SpacedWords.{with_spaces, with_word};
ghost use Rattle.printed_lines.specs.declared.almanacs.TheConstants.{ALMANACS_BYTES};
ghost use Rattle.printed_lines.specs.declared.words.TheConstants.{WORD_BYTES};

use crate::words::{KIND_BYTES, Line, NUMBER_BYTES, WORD_BYTES};
use data_sets::{AlmanacSet, SATELLITES};

/// The most bytes that the words of the almanacs take up.
pub const ALMANACS_BYTES: usize = KIND_BYTES + NUMBER_BYTES + 8 + SATELLITES * WORD_BYTES;

/// Adds the time of the almanacs, in units of 2^12 seconds, and the health of satellites 1 to 32
/// (IS-GPS-200, section 20.3.3.5.1.2).
pub(crate) fn put_almanacs(line: &mut Line, slot: u8, set: &AlmanacSet)
    requires room { HasRoom ALMANACS_BYTES line.old }
    ensures text { line.new
        ≡ with_word line.old (event_text slot (almanacs (almanacs_in set.now))) }
    ensures longer { TakesUp ALMANACS_BYTES line.old line.new }
{
    line.kind(b"als", slot);
    line.text(b" toa=");
    line.integer(set.toa);
    line.text(b":12");
    put_health(line, &set.health);
}

/// Adds the health of each satellite.
fn put_health(line: &mut Line, health: &[i64; SATELLITES])
    requires room { HasRoom (SATELLITES * WORD_BYTES) line.old }
    ensures text { line.new ≡ line.old ++ with_spaces signed_decimal health.now }
    ensures longer { TakesUp (SATELLITES * WORD_BYTES) line.old line.new }
{
    for value in health {
        line.signed(*value);
    }
}
