//! The message that is read from the prompt sums.

ghost use Rattle.std.specs.Prelude.{◌≡◌, ◌≤◌, ◌<◌, ◌+◌, unsigned_abs, ℤ};
ghost use Rattle.std.specs.Prelude.{Bool, List, [], ◌∷◌, ◌++◌};
ghost use Rattle.definitions.specs.BitEdge.{has_edge};
ghost use Rattle.definitions.specs.Frames.{found_by};
ghost use Rattle.definitions.specs.Events.{bit_events, push_events};
ghost use Rattle.bit_sync.specs.declared.bit_sum.TheConstants.{MOST_PUSH};
ghost use Rattle.nav_message.specs.declared.message.TheConstants.{MOST_BITS};
ghost use Rattle.nav_message.specs.News.{events_in};

use crate::news::MessageNews;
use bit_sync::{BitNews, BitSync, MOST_PUSH};
use data_sets::{DataSets, Reports};
use frame_sync::FrameSync;
use subframes::Page;

/// The most bits of a message: those of more than 600 years.
pub const MOST_BITS: u64 = frame_sync::MOST_BITS;

/// What is known of a satellite's message: the edge of its bits, the subframe that is coming in and
/// what is kept of its pages. It stands for the prompt sums that were pushed.
#[derive(Debug, Drop)]
pub struct Message {
    bits: BitSync,
    frames: FrameSync,
    sets: DataSets,
}

impl Message {
    ghost use Rattle.nav_message.specs.Standing.{HasRead, StandsFor, bit_count};

    /// A message to which nothing was pushed.
    #[must_use]
    pub fn new() -> Message
        ensures stands { StandsFor [] result }
        ensures none { bit_count result ≡ 0 }
    {
        Message {
            bits: BitSync::new(),
            frames: FrameSync::new(),
            sets: DataSets::new(),
        }
    }

    /// Takes the prompt sum in phase of the next dump, at most `MOST_PUSH` of `bit_sync` in size.
    /// What it reports replaces `news`: nothing, the edge of the bits, or a subframe with the gap
    /// before it and what its page makes reported. A bit is 20 dumps (IS-GPS-200, section 3.2.2),
    /// and a subframe 300 bits (section 20.3.2). A message takes up to [`MOST_BITS`] bits. A push
    /// brings one at most. What is reported is large and comes rarely, so the caller keeps the room
    /// for it.
    ///
    /// # Panics
    ///
    /// Plain Rust panics where the sum is larger, or `MOST_BITS` bits have come.
    pub fn push(&mut self, ip: i32, news: &mut MessageNews)
        requires small { unsigned_abs ip ≤ MOST_PUSH }
        requires room { bit_count self.old < MOST_BITS }
        ensures counted { bit_count self.new ≤ bit_count self.old + 1 }
        ensures stands { (pushes : List ℤ) → StandsFor pushes self.old
            → StandsFor (pushes ++ ip ∷ []) self.new }
        ensures news { (pushes : List ℤ) → StandsFor pushes self.old
            → events_in news.new ≡ push_events (pushes ++ ip ∷ []) }
    {
        prove!(
            ip.unsigned_abs() <= MOST_PUSH,
            "Message::push requires |ip| <= MOST_PUSH"
        );
        prove!(
            self.frames.pushed() < MOST_BITS,
            "Message::push requires fewer bits than MOST_BITS before it"
        );
        match self.bits.push(ip) {
            BitNews::Nothing => news.clear(),
            BitNews::Edge => *news = MessageNews::Edge,
            BitNews::Bit(bit) => self.take_bit(bit, news),
        }
    }

    /// Takes the next bit, and what it makes reported replaces `news`. It stays a call, since most
    /// pushes bring no bit.
    #[inline(never)]
    fn take_bit(&mut self, bit: bool, news: &mut MessageNews)
        requires room { bit_count self.old < MOST_BITS }
        ensures counted { bit_count self.new ≡ bit_count self.old + 1 }
        ensures same_edge { self.new.bits ≡ self.old.bits }
        ensures read { (bits : List Bool) → HasRead bits self.old
            → HasRead (bits ++ bit ∷ []) self.new }
        ensures news { (bits : List Bool) → HasRead bits self.old
            → events_in news.new ≡ bit_events (bits ++ bit ∷ []) (found_by (bits ++ bit ∷ [])) }
    {
        let Some(found) = self.frames.push(bit) else {
            news.clear();
            return;
        };
        let reports = match Page::read(&found.subframe) {
            Some(page) => self.sets.take(&page),
            None => Reports::NONE,
        };
        *news = MessageNews::Frame { found, reports };
    }

    /// Whether the edge of the bits is found.
    #[must_use]
    pub fn has_edge(&self) -> bool
        ensures { (pushes : List ℤ) → StandsFor pushes self.now → result ≡ has_edge pushes }
    {
        self.bits.has_edge()
    }
}

impl Default for Message {
    ghost use Rattle.nav_message.specs.Standing.{StandsFor};

    /// A message to which nothing was pushed.
    fn default() -> Message
        ensures { StandsFor [] result }
    {
        Message::new()
    }
}
