//! The entry of one line: its time, and a command or why it is refused.

ghost use Rattle.std.specs.Prelude.{◌≡◌, ◌≤◌};
ghost use Rattle.std.specs.List.{list_all};
ghost use Rattle.definitions.specs.Scripts.{entry_of, command_in, verbs};
ghost use Rattle.definitions.specs.Scripts.{is_printable as defined_is_printable};
ghost use Rattle.definitions.specs.Scripts.{time_in as defined_time_in};
ghost use Rattle.definitions.specs.Lines.{words_of};
ghost use Rattle.client_commands.specs.Entries.{entries_in, result_in};
ghost use Rattle.slot_protocol.specs.declared.command.TheConstants.{MOST_SLOTS};

use crate::number::number_in;
use crate::refusal::LineRefusal;
use crate::script::Timed;
use crate::verb::Verb;
use crate::words::next_word;
use sample_planes::MOST_TIME;
use slot_protocol::Command;

/// The most bytes of a line of a script.
const SCRIPT_LINE_BYTES: usize = 80;

/// The entry of a line that follows one of time `before`, in the script of a client with a share of
/// the slots. A line without words has none.
#[tactic(auto, unfolding(definitions::specs::Scripts::entry_of))]
pub(crate) fn entry(line: &[u8], before: u64, share: u8) -> Option<Timed>
    requires some { 1 ≤ share }
    requires most { share ≤ MOST_SLOTS }
    ensures { entries_in result ≡ entry_of verbs share before line.now }
{
    if SCRIPT_LINE_BYTES < line.len() {
        return refusal_at(before, LineRefusal::LineTooLong);
    }
    if !is_printable(line) {
        return refusal_at(before, LineRefusal::NotPrintable);
    }
    let (word, rest) = next_word(line)?;
    match time_in(word) {
        None => refusal_at(before, LineRefusal::NoTime),
        Some(time) if time < before => refusal_at(before, LineRefusal::TimeGoesBack),
        Some(time) => Some(Timed {
            time,
            what: command(rest, share),
        }),
    }
}

/// Whether each byte is one from 0x20 to 0x7e.
fn is_printable(line: &[u8]) -> bool
    ensures { result ≡ list_all defined_is_printable line.now }
{
    line.iter().all(|b| 0x20 <= *b && *b <= 0x7e)
}

/// The time that a word gives.
fn time_in(word: &[u8]) -> Option<u64>
    ensures { result ≡ defined_time_in word.now }
{
    number_in(word).filter(|time| *time <= MOST_TIME)
}

/// A refusal at a time.
fn refusal_at(time: u64, refusal: LineRefusal) -> Option<Timed>
    ensures { result ≡ Some (record { time = time; what = Err refusal }) }
{
    Some(Timed {
        time,
        what: Err(refusal),
    })
}

/// The command that the words after the time ask for.
fn command(words: &[u8], share: u8) -> Result<Command, LineRefusal>
    requires some { 1 ≤ share }
    requires most { share ≤ MOST_SLOTS }
    ensures { result_in result ≡ command_in verbs share (words_of words.now) }
{
    let (name, words) = next_word(words).ok_or(LineRefusal::NoVerb)?;
    let verb = Verb::with_name(name).ok_or(LineRefusal::NoVerb)?;
    verb.command(words, share)
}
