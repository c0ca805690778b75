//! The words of what slots answer, and of refusals.

ghost use Rattle.std.specs.Prelude.{◌≡◌, ◌≤◌, ◌+◌, ◌*◌, length, codes};
ghost use Rattle.std.specs.Prelude.{if◌then◌else◌};
ghost use Rattle.std.specs.Fmt.{decimal};
ghost use Rattle.definitions.specs.Texts.{answer_text, refusal_text};
ghost use Rattle.definitions.specs.Answers.{shown};
ghost use Rattle.slot_protocol.specs.Answers.{answer_in, view_in};
ghost use Rattle.slot_protocol.specs.Answers.{is_locked_in, has_edge_in};
ghost use Rattle.printed_lines.specs.Room.{HasRoom, TakesUp};
ghost use Rattle.printed_lines.specs.SpacedWords.{with_word};
ghost use Rattle.printed_lines.specs.declared.answers.TheConstants.{STATE_BYTES};
ghost use Rattle.printed_lines.specs.declared.words.TheConstants.{NUMBER_BYTES, WORD_BYTES};

use crate::words::{KIND_BYTES, Line, WORD_BYTES};
use slot_protocol::{Answer, Phase, SlotState};

/// The most bytes that the words of a state take up.
pub const STATE_BYTES: usize = KIND_BYTES + 6 * WORD_BYTES;

/// Adds the words of an answer.
pub(crate) fn put_answer(line: &mut Line, slot: u8, answer: &Answer)
    requires room { HasRoom STATE_BYTES line.old }
    ensures text { line.new ≡ with_word line.old (answer_text slot (answer_in answer.now)) }
    ensures longer { TakesUp STATE_BYTES line.old line.new }
{
    match answer {
        Answer::Accepted => line.word(b"ok"),
        Answer::Refused(refusal) => put_refusal(line, refusal.number()),
        Answer::State(state) => put_state(line, slot, *state),
    }
}

/// Adds the words of a refusal.
pub(crate) fn put_refusal(line: &mut Line, number: u8)
    requires room { HasRoom (2 * WORD_BYTES) line.old }
    ensures text { line.new ≡ with_word line.old (refusal_text number) }
    ensures longer { TakesUp (2 * WORD_BYTES) line.old line.new }
{
    line.word(b"err");
    line.number(number.into());
}

/// Adds the words of what a slot shows.
fn put_state(line: &mut Line, slot: u8, state: SlotState)
    requires room { HasRoom STATE_BYTES line.old }
    ensures text { line.new ≡ with_word line.old (answer_text slot (shown (view_in state))) }
    ensures longer { TakesUp STATE_BYTES line.old line.new }
{
    line.kind(b"state", slot);
    match state {
        SlotState::Idle => line.word(b"idle"),
        SlotState::Acquire { prn, done, cells } => {
            put_followed(line, b"acquire", prn.get(), done);
            line.number(cells);
        }
        SlotState::Hold { prn, dumps } => put_followed(line, b"hold", prn.get(), dumps),
        SlotState::Track {
            prn,
            dumps,
            v,
            w,
            phase,
        } => {
            put_followed(line, b"track", prn.get(), dumps);
            line.signed(v);
            line.signed(w);
            line.word(word_of(phase));
        }
    }
}

/// Adds how a satellite is followed, which it is, and the number of its dumps.
fn put_followed(line: &mut Line, how: &[u8], prn: u8, dumps: u64)
    requires short { length how.now ≤ NUMBER_BYTES }
    requires room { HasRoom (3 * WORD_BYTES) line.old }
    ensures text { line.new
        ≡ with_word (with_word (with_word line.old how.now) (decimal prn)) (decimal dumps) }
    ensures longer { TakesUp (3 * WORD_BYTES) line.old line.new }
{
    line.word(how);
    line.number(prn.into());
    line.number(dumps);
}

/// The word of how far a slot has come.
fn word_of(phase: Phase) -> &'static [u8]
    ensures word { result.now ≡ (if has_edge_in phase then codes "bits"
        else if is_locked_in phase then codes "lock" else codes "open") }
    ensures short { length result.now ≤ NUMBER_BYTES }
{
    match phase {
        Phase::Unlocked => b"open",
        Phase::Locked => b"lock",
        Phase::Edged => b"bits",
    }
}
