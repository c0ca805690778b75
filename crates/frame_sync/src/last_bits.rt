//! The bits that were pushed last.

ghost use Rattle.std.specs.Prelude.{◌≡◌, ◌+◌, ◌*◌, ◌%◌, ◌^◌, ◌<◌, ◌≤◌, IsTrue, IfSome, SomeIff};
ghost use Rattle.definitions.specs.Frames.{bit_number};
ghost use Rattle.frame_sync.specs.Bits.{bits_in, word_in, is_framed_in, has_header_in};
ghost use Rattle.frame_sync.specs.Bits.{header_words_in};
ghost use Rattle.nav_parity.specs.declared.parity.TheConstants.{DATA_LIMIT};
ghost use Rattle.frame_sync.specs.declared.last_bits.TheConstants.{WINDOW_BITS, CHECKED_BITS};

use crate::subframe::{SUBFRAME_WORDS, Subframe};
use nav_parity::check;

/// The bits that a window keeps.
pub const WINDOW_BITS: u32 = 64;

/// The bits that a word is checked with: its own and the two before it (IS-GPS-200, section
/// 20.3.5).
pub const CHECKED_BITS: u32 = 32;

/// The last 64 bits, the newest lowest, with 0 in place of those before the first.
#[derive(Clone, Copy, Debug)]
pub(crate) struct LastBits {
    bits: u64,
}

impl LastBits {
    pub(crate) fn new() -> Self
        ensures { result.bits ≡ 0 }
    {
        LastBits { bits: 0 }
    }

    #[tactic(auto, using(crate::proofs::Windows::pushed_in))]
    pub(crate) fn push(&mut self, bit: bool)
        ensures { self.new.bits ≡ (self.old.bits * 2 + bit_number bit) % 2 ^ WINDOW_BITS }
    {
        self.bits = (self.bits << 1) | u64::from(bit);
    }

    /// The header that the newest 60 bits are, if they are one, as a subframe with no further word:
    /// two words that pass, the first with the preamble, the second with an ID of 1 to 5
    /// (IS-GPS-200, sections 20.3.3.1 and 20.3.3.2).
    #[tactic(auto, using(crate::proofs::Headers::headers))]
    pub(crate) fn header(&self) -> Option<Subframe>
        ensures { SomeIff result (IsTrue (has_header_in self.now.bits))
            (record { words = header_words_in self.now.bits }) }
    {
        if !self.is_framed() {
            return None;
        }
        let mut words = [None; SUBFRAME_WORDS];
        words[0] = self.word(30);
        words[1] = self.word(0);
        Subframe::from_words(words)
    }

    /// Whether the two bits before the newest 60 are equal, and the last two are the same. Word 2
    /// is sent with 0, 0 at its end, and so is word 10 of the subframe before; a receiver may see
    /// all four inverted (IS-GPS-200, section 20.3.3.2).
    fn is_framed(&self) -> bool
        ensures { result ≡ is_framed_in self.now.bits }
    {
        let before = self.number(60, 2);
        (before == 0 || before == 3) && self.number(0, 2) == before
    }

    /// The data of the word that ends this many bits before the newest one, where it passes with
    /// the two bits before it (IS-GPS-200, section 20.3.5).
    #[tactic(auto, unfolding(crate::specs::Bits::word_in))]
    pub(crate) fn word(&self, behind: u32) -> Option<u32>
        requires { behind + CHECKED_BITS ≤ WINDOW_BITS }
        ensures word { result ≡ word_in self.now.bits behind }
        ensures in_range { IfSome result (λ found. found < DATA_LIMIT) }
    {
        let word = self.number(behind, 30);
        let prior = self.number(behind + 30, 2);
        check(word as u32, prior as u8)
    }

    /// The number that `count` bits write, the last of which came this many bits before the newest
    /// of all.
    #[tactic(auto, using(crate::proofs::Windows::masked))]
    fn number(&self, behind: u32, count: u32) -> u64
        requires within { behind + count ≤ WINDOW_BITS }
        requires behind_one { behind < WINDOW_BITS }
        requires small { count < WINDOW_BITS }
        ensures { result ≡ bits_in self.now.bits behind count }
    {
        (self.bits >> behind) & ((1 << count) - 1)
    }
}
