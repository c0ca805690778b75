//! A bit for each sample of a run.

ghost use Rattle.std.specs.Prelude.{◌≡◌, ◌+◌, ◌-◌, ◌*◌, ◌<◌, ℕ};
ghost use Rattle.std.specs.Int.{bit_at};
ghost use Rattle.bit_planes.specs.declared.plane.TheConstants.{PLACES, WORDS, WORD_PLACES};

/// The places of a plane.
pub const PLACES: usize = 1024;

/// The places of a word of a plane.
pub const WORD_PLACES: usize = 64;

/// The words of 64 places of a plane.
pub const WORDS: usize = 16;

/// A bit for each of 1,024 places.
#[derive(Clone, Copy, Debug)]
pub struct Plane {
    /// Place i is in word i / 64, the first place of a word being its top bit.
    words: [u64; WORDS],
}

impl Plane {
    ghost use Rattle.bit_planes.specs.Bits.{bit, IsDrawn};

    /// A plane of which all bits are 0.
    pub fn new() -> Plane
        ensures { (f : ℕ → ℕ) → IsDrawn f 0 result }
    {
        Plane { words: [0; WORDS] }
    }

    /// Sets the 64 places from `64 * w` on. They and all places after them are 0 before. The first
    /// of them is the top bit.
    pub fn set_word(&mut self, w: usize, word: u64)
        requires { w < WORDS }
        ensures { (f : ℕ → ℕ) → IsDrawn f (WORD_PLACES * w) self.old
            → ((j : ℕ) → j < WORD_PLACES
            → bit_at word (WORD_PLACES - 1 - j) ≡ f (WORD_PLACES * w + j))
            → IsDrawn f (WORD_PLACES * w + WORD_PLACES) self.new }
    {
        self.words[w] = word;
    }

    /// The bit at a place, 0 or 1.
    pub fn bit(&self, place: usize) -> u64
        requires { place < PLACES }
        ensures value { result ≡ bit self.now place }
        ensures small { result < 2 }
    {
        (self.words[place / 64] >> (63 - place % 64)) & 1
    }
}
