//! A line in the making, word by word. One space stands before each word but the first.

ghost use Rattle.std.specs.Prelude.{◌≡◌, ◌≤◌, ◌<◌, ◌+◌, List, ℕ, ◌++◌, ◌∷◌, [], length};
ghost use Rattle.std.specs.Fmt.{decimal};
ghost use Rattle.arrayvec.specs.ArrayVec.{array_vec_len};
ghost use Rattle.printed_lines.specs.declared.words.TheConstants.{LINE_BYTES, NUMBER_BYTES};

use crate::hex::hex_digit;
use arrayvec::ArrayVec;
use std::marker::Model;
use std::ops::DerefSlice;

/// The most bytes that a line has, its end included.
pub const LINE_BYTES: usize = 1024;

/// The most bytes of a number of 64 bits: twenty digits, or a sign and nineteen.
pub const NUMBER_BYTES: usize = 20;

/// The most bytes that a word takes up: a space and a number.
pub const WORD_BYTES: usize = NUMBER_BYTES + 1;

/// The most digits of a number of 8 bits.
const BYTE_DIGITS: usize = 3;

/// The most letters of a kind of line.
pub const KIND_LETTERS: usize = 6;

/// The most bytes that a line begins with: a client and a time.
pub const HEAD_BYTES: usize = BYTE_DIGITS + WORD_BYTES;

/// The most bytes that a kind and a slot take up, each with a space before it.
pub const KIND_BYTES: usize = KIND_LETTERS + BYTE_DIGITS + 2;

/// A line in the making, or one with its end. Clauses see its bytes.
#[derive(Drop)]
pub struct Line {
    bytes: ArrayVec<u8, LINE_BYTES>,
}

impl Model for Line {
    ghost Value = { List ℕ };

    ghost view = { λ l. l.bytes.items };
}

impl DerefSlice for Line {
    type Elem = u8;

    ghost deref_gives = { λ l xs. (xs ≡ l) × (length xs ≤ LINE_BYTES) };

    fn deref(&self) -> &[u8] {
        self.bytes.as_slice()
    }
}

impl Line {
    ghost use Rattle.std.specs.Fmt.{signed_decimal};
    ghost use Rattle.definitions.specs.Lines.{ended_line};
    ghost use Rattle.definitions.specs.Texts.{hex_of_bytes};
    ghost use Rattle.printed_lines.specs.declared.words.TheConstants.{WORD_BYTES, HEAD_BYTES};
    ghost use Rattle.printed_lines.specs.declared.words.TheConstants.{KIND_LETTERS, KIND_BYTES};
    ghost use Rattle.printed_lines.specs.Room.{HasRoom, TakesUp};
    ghost use Rattle.printed_lines.specs.SpacedWords.{with_word};

    /// A line with no word, in whose room others can be made.
    pub fn blank() -> Self
        ensures { result ≡ [] }
    {
        Line {
            bytes: ArrayVec::new(),
        }
    }

    /// A line of a client at a time.
    pub(crate) fn new(client: u8, time: u64) -> Self
        ensures text { result ≡ with_word (decimal client) (decimal time) }
        ensures short { length result ≤ HEAD_BYTES }
    {
        let mut line = Line::blank();
        line.begin(client, time);
        line
    }

    /// Begins a line of a client at a time, in the room of what was there.
    pub(crate) fn begin(&mut self, client: u8, time: u64)
        ensures text { self.new ≡ with_word (decimal client) (decimal time) }
        ensures short { length self.new ≤ HEAD_BYTES }
    {
        self.bytes.clear();
        push_decimal(&mut self.bytes, client.into());
        self.number(time);
    }

    /// Adds the kind of a line and the slot that it is of.
    pub(crate) fn kind(&mut self, kind: &[u8], slot: u8)
        requires short { length kind.now ≤ KIND_LETTERS }
        requires room { HasRoom KIND_BYTES self.old }
        ensures text { self.new ≡ with_word (with_word self.old kind.now) (decimal slot) }
        ensures longer { TakesUp KIND_BYTES self.old self.new }
    {
        self.text(b" ");
        self.text(kind);
        self.text(b" ");
        push_decimal(&mut self.bytes, slot.into());
    }

    /// Adds a word.
    pub(crate) fn word(&mut self, text: &[u8])
        requires short { length text.now ≤ NUMBER_BYTES }
        requires room { HasRoom WORD_BYTES self.old }
        ensures text { self.new ≡ with_word self.old text.now }
        ensures longer { TakesUp WORD_BYTES self.old self.new }
    {
        self.text(b" ");
        self.text(text);
    }

    /// Adds a number as a word.
    pub(crate) fn number(&mut self, n: u64)
        requires room { HasRoom WORD_BYTES self.old }
        ensures text { self.new ≡ with_word self.old (decimal n) }
        ensures longer { TakesUp WORD_BYTES self.old self.new }
    {
        self.text(b" ");
        push_decimal(&mut self.bytes, n);
    }

    /// Adds a number with its sign, where it is below zero, as a word.
    pub(crate) fn signed(&mut self, z: i64)
        requires room { HasRoom WORD_BYTES self.old }
        ensures text { self.new ≡ with_word self.old (signed_decimal z) }
        ensures longer { TakesUp WORD_BYTES self.old self.new }
    {
        self.text(b" ");
        self.integer(z);
    }

    /// Adds bytes to the last word.
    pub(crate) fn text(&mut self, text: &[u8])
        requires room { HasRoom (length text.now) self.old }
        ensures text { self.new ≡ self.old ++ text.now }
        ensures longer { length self.new ≡ length self.old + length text.now }
    {
        let _fits = self.bytes.try_extend_from_slice(text);
    }

    /// Adds a number, with its sign where it is below zero, to the last word.
    pub(crate) fn integer(&mut self, z: i64)
        requires room { HasRoom NUMBER_BYTES self.old }
        ensures text { self.new ≡ self.old ++ signed_decimal z }
        ensures longer { TakesUp NUMBER_BYTES self.old self.new }
    {
        if z < 0 {
            self.bytes.push(b'-');
        }
        push_decimal(&mut self.bytes, z.unsigned_abs());
    }

    /// Adds two lower case hexadecimal digits to the last word.
    pub(crate) fn hex(&mut self, byte: u8)
        requires room { HasRoom 2 self.old }
        ensures text { self.new ≡ self.old ++ hex_of_bytes (byte ∷ []) }
        ensures longer { length self.new ≡ length self.old + 2 }
    {
        self.bytes.push(hex_digit(byte / 16));
        self.bytes.push(hex_digit(byte % 16));
    }

    /// Adds the line feed that ends the line.
    pub(crate) fn end(&mut self)
        requires room { HasRoom 0 self.old }
        ensures { self.new ≡ ended_line self.old }
    {
        self.bytes.push(b'\n');
    }
}

/// Adds the digits of a number.
fn push_decimal(bytes: &mut ArrayVec<u8, LINE_BYTES>, n: u64)
    requires room { array_vec_len bytes.old + length (decimal n) < LINE_BYTES }
    ensures text { bytes.new.items ≡ bytes.old.items ++ decimal n }
    ensures longer { array_vec_len bytes.new ≡ array_vec_len bytes.old + length (decimal n) }
{
    if 10 <= n {
        push_decimal(bytes, n / 10);
    }
    bytes.push(b'0' + (n % 10) as u8);
}
