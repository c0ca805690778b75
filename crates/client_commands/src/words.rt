//! Lines of a script, words of a line, and the values of the words after a verb.

ghost use Rattle.std.specs.Prelude.{◌≡◌, ◌≤◌, ◌<◌, ◌==◌, ◌∷◌, [], length, position, MatchOption};
ghost use Rattle.definitions.specs.Lines.{pieces_ended_by, lines_of, words_of};

use crate::number::signed_number_in;
use crate::refusal::LineRefusal;
use acquisition::MOST_CENTRE;
use arrayvec::ArrayVec;
use ca_codes::Prn;
use oscillators::{Doppler, HalfChip};
use slot_protocol::SlotNo;
use std::marker::Model;

/// The most words after a verb: those of `acquire`.
pub(crate) const MOST_WORDS: usize = 6;

/// The most dumps that a client can ask for at once.
pub const MOST_SHOWN_DUMPS: u32 = 1_000_000;

/// The place of the first byte `end` of a text.
fn place_of(end: u8, text: &[u8]) -> Option<usize>
    ensures { result ≡ position (λ b. b == end) text.now }
{
    text.iter().position(|b| *b == end)
}

/// What comes before the first byte `end` of a text, or all of it, and what comes after. An empty
/// text has no piece.
fn next_piece(end: u8, text: &[u8]) -> Option<(&[u8], &[u8])>
    ensures { MatchOption result (pieces_ended_by end text.now ≡ [])
        (λ found. pieces_ended_by end text.now
        ≡ found.0.now ∷ pieces_ended_by end found.1.now) }
{
    if text.is_empty() {
        return None;
    }
    match place_of(end, text) {
        Some(at) => Some((&text[..at], &text[at + 1..])),
        None => Some((text, &[])),
    }
}

/// The first line of a text and what follows its line feed, or `None` where the text is empty.
pub(crate) fn next_line(text: &[u8]) -> Option<(&[u8], &[u8])>
    ensures { MatchOption result (lines_of text.now ≡ [])
        (λ found. lines_of text.now ≡ found.0.now ∷ lines_of found.1.now) }
{
    next_piece(b'\n', text)
}

/// The first word of a line and what follows it, or `None` where there is none.
pub(crate) fn next_word(line: &[u8]) -> Option<(&[u8], &[u8])>
    ensures { MatchOption result (words_of line.now ≡ [])
        (λ found. words_of line.now ≡ found.0.now ∷ words_of found.1.now) }
{
    let mut rest = line;
    while let Some((piece, behind)) = next_piece(b' ', rest) {
        if !piece.is_empty() {
            return Some((piece, behind));
        }
        rest = behind;
    }
    None
}

/// The words after a verb that are still to be read. Clauses see them as lists of bytes.
#[derive(Drop)]
pub(crate) struct Words<'a> {
    /// All words after the verb.
    words: ArrayVec<&'a [u8], MOST_WORDS>,
    /// The number of words that are read.
    read: usize,
}

impl<'a> Model for Words<'a> {
    ghost use Rattle.std.specs.Prelude.{ℕ, List, map, drop};

    ghost Value = { List (List ℕ) };

    ghost view = { λ w. map (λ word. word.now) (drop w.read w.words.items) };
}

impl<'a> Words<'a> {
    ghost use Rattle.std.specs.Prelude.{drop, get_or, ok_or, unsigned_abs, OkIff, IfOk, IfErr};
    ghost use Rattle.definitions.specs.Scripts.{up_to, satellites, doppler_shifts};
    ghost use Rattle.definitions.specs.Scripts.{half_chips, centres, dump_counts};
    ghost use Rattle.definitions.specs.Scripts.{signed_number_in as defined_signed_number_in};
    ghost use Rattle.client_commands.specs.Reading.{ReadsNumber, ReadsInteger};
    ghost use Rattle.client_commands.specs.declared.words.TheConstants.{MOST_WORDS};
    ghost use Rattle.client_commands.specs.declared.words.TheConstants.{MOST_SHOWN_DUMPS};
    ghost use Rattle.acquisition.specs.declared.plan.TheConstants.{MOST_CENTRE};
    ghost use Rattle.slot_protocol.specs.declared.command.TheConstants.{MOST_SLOTS};
    ghost use Rattle.std.specs.Prelude.{◌-◌};

    /// The words of a line, of which there are to be `count`. They are split before the first of
    /// them is judged, since a wrong number of words is refused before any value.
    pub(crate) fn split(line: &'a [u8], count: usize) -> Result<Words<'a>, LineRefusal>
        requires { count ≤ MOST_WORDS }
        ensures words { OkIff result (length (words_of line.now) ≡ count) (words_of line.now) }
        ensures refused { IfErr result (λ refusal. refusal ≡ LineRefusal.WrongWordCount) }
    {
        let mut words = ArrayVec::new();
        let mut rest = line;
        while let Some((word, behind)) = next_word(rest) {
            if words.is_full() {
                return Err(LineRefusal::WrongWordCount);
            }
            words.push(word);
            rest = behind;
        }
        if words.len() == count {
            Ok(Words { words, read: 0 })
        } else {
            Err(LineRefusal::WrongWordCount)
        }
    }

    /// The number that the next word writes.
    fn number(&mut self) -> Result<i64, LineRefusal>
        requires { 0 < length self.old }
        ensures number { result
            ≡ ok_or (defined_signed_number_in (get_or self.old 0 [])) LineRefusal.NotANumber }
        ensures left { self.new ≡ drop 1 self.old }
    {
        let word = self.words[self.read];
        self.read += 1;
        signed_number_in(word).ok_or(LineRefusal::NotANumber)
    }

    /// The number that the next word writes, `low` to `high`.
    pub(crate) fn number_between(&mut self, low: u32, high: u32) -> Result<u32, LineRefusal>
        requires { 0 < length self.old }
        ensures value { ReadsNumber (up_to low high) self.old result self.new }
        ensures range { IfOk result (λ number. (low ≤ number) × (number ≤ high)) }
        ensures left { self.new ≡ drop 1 self.old }
    {
        let number = u32::try_from(self.number()?).ok();
        number
            .filter(|number| low <= *number && *number <= high)
            .ok_or(LineRefusal::OutOfRange)
    }

    /// The slot that the next word names, of a client with a share of the slots.
    pub(crate) fn slot(&mut self, share: u8) -> Result<SlotNo, LineRefusal>
        requires word { 0 < length self.old }
        requires some { 1 ≤ share }
        requires most { share ≤ MOST_SLOTS }
        ensures value { ReadsNumber (up_to 0 (share - 1)) self.old result self.new }
        ensures left { self.new ≡ drop 1 self.old }
    {
        let number = self.number_between(0, u32::from(share) - 1)?;
        SlotNo::new(number as u8).ok_or(LineRefusal::OutOfRange)
    }

    /// The satellite that the next word names, 1 to 32.
    pub(crate) fn prn(&mut self) -> Result<Prn, LineRefusal>
        requires { 0 < length self.old }
        ensures value { ReadsNumber satellites self.old result self.new }
        ensures left { self.new ≡ drop 1 self.old }
    {
        let number = u8::try_from(self.number()?).ok();
        number.and_then(Prn::new).ok_or(LineRefusal::OutOfRange)
    }

    /// The Doppler shift that the next word writes, -16,000 to 16,000 Hz.
    pub(crate) fn doppler(&mut self) -> Result<Doppler, LineRefusal>
        requires { 0 < length self.old }
        ensures value { ReadsInteger doppler_shifts self.old result self.new }
        ensures left { self.new ≡ drop 1 self.old }
    {
        let hz = i32::try_from(self.number()?).ok();
        hz.and_then(Doppler::new).ok_or(LineRefusal::OutOfRange)
    }

    /// The centre of a search that the next word writes, -6,000 to 6,000 Hz.
    pub(crate) fn centre(&mut self) -> Result<i32, LineRefusal>
        requires { 0 < length self.old }
        ensures value { ReadsInteger centres self.old result self.new }
        ensures range { IfOk result (λ hz. unsigned_abs hz ≤ MOST_CENTRE) }
        ensures left { self.new ≡ drop 1 self.old }
    {
        let hz = i32::try_from(self.number()?).ok();
        hz.filter(|hz| hz.unsigned_abs() <= MOST_CENTRE)
            .ok_or(LineRefusal::OutOfRange)
    }

    /// The place in the code that the next word writes, 0 to 2,045 half chips.
    pub(crate) fn half_chip(&mut self) -> Result<HalfChip, LineRefusal>
        requires { 0 < length self.old }
        ensures value { ReadsNumber half_chips self.old result self.new }
        ensures left { self.new ≡ drop 1 self.old }
    {
        let half_chips = u16::try_from(self.number()?).ok();
        half_chips
            .and_then(HalfChip::new)
            .ok_or(LineRefusal::OutOfRange)
    }

    /// The number of dumps that the next word writes, 0 to `MOST_SHOWN_DUMPS`.
    pub(crate) fn dumps(&mut self) -> Result<u32, LineRefusal>
        requires { 0 < length self.old }
        ensures value { ReadsNumber dump_counts self.old result self.new }
        ensures left { self.new ≡ drop 1 self.old }
    {
        self.number_between(0, MOST_SHOWN_DUMPS)
    }
}
