//! The words of a subframe, each as hexadecimal digits.

ghost use Rattle.std.specs.Prelude.{◌≡◌, ◌++◌, ◌+◌, ◌*◌};
ghost use Rattle.definitions.specs.Texts.{event_text, word_text};
ghost use Rattle.definitions.specs.Events as events;
ghost use Rattle.frame_sync.specs.declared.subframe.TheConstants.{SUBFRAME_WORDS};
ghost use Rattle.printed_lines.specs.Room.{HasRoom, TakesUp};
ghost use Rattle.printed_lines.specs.SpacedWords.{with_spaces, with_word};
ghost use Rattle.printed_lines.specs.declared.subframe_words.TheConstants.{DATA_BYTES};
ghost use Rattle.printed_lines.specs.declared.subframe_words.TheConstants.{SUBFRAME_BYTES};

use crate::words::{KIND_BYTES, Line, WORD_BYTES};
use frame_sync::{SUBFRAME_WORDS, Subframe};

/// The bytes that a data word takes up: a space and six digits.
pub const DATA_BYTES: usize = 7;

/// The most bytes that the words of a subframe take up.
pub const SUBFRAME_BYTES: usize = KIND_BYTES + 2 * WORD_BYTES + SUBFRAME_WORDS * DATA_BYTES;

/// Adds the ID, the time of week and the ten words of a subframe (IS-GPS-200, section 20.3.3).
pub(crate) fn put_subframe(line: &mut Line, slot: u8, subframe: &Subframe)
    requires room { HasRoom SUBFRAME_BYTES line.old }
    ensures text { line.new
        ≡ with_word line.old (event_text slot (events.subframe subframe.now)) }
    ensures longer { TakesUp SUBFRAME_BYTES line.old line.new }
{
    line.kind(b"sub", slot);
    line.number(subframe.id().into());
    line.number(subframe.tow().into());
    put_words(line, subframe);
}

/// Adds the ten words of a subframe.
fn put_words(line: &mut Line, subframe: &Subframe)
    requires room { HasRoom (SUBFRAME_WORDS * DATA_BYTES) line.old }
    ensures text { line.new ≡ line.old ++ with_spaces word_text subframe.now.words }
    ensures longer { TakesUp (SUBFRAME_WORDS * DATA_BYTES) line.old line.new }
{
    for i in 0..SUBFRAME_WORDS {
        put_word(line, subframe.word(i + 1));
    }
}

/// Adds the six digits of a data word, or six dashes where it is missing.
fn put_word(line: &mut Line, word: Option<u32>)
    requires room { HasRoom DATA_BYTES line.old }
    ensures text { line.new ≡ with_word line.old (word_text word) }
    ensures longer { TakesUp DATA_BYTES line.old line.new }
{
    line.text(b" ");
    match word {
        None => line.text(b"------"),
        Some(bits) => {
            let [_, high, middle, low] = bits.to_be_bytes();
            line.hex(high);
            line.hex(middle);
            line.hex(low);
        }
    }
}
