//! The message of a satellite, from lock to lock.

ghost use Rattle.std.specs.Prelude.{◌≡◌, ◌≤◌, ◌<◌, ◌+◌, List, [], ◌∷◌, ◌++◌, true};
ghost use Rattle.definitions.specs.BitEdge.{has_edge};
ghost use Rattle.definitions.specs.Correlation.{Counts as DefinedCounts};
ghost use Rattle.definitions.specs.Events.{pushes_of, push_events};
ghost use Rattle.definitions.specs.Lock as lock;
ghost use Rattle.lane_correlator.specs.Counting.{counts_in, AreWithin};
ghost use Rattle.nav_message.specs.News.{events_in};
ghost use Rattle.nav_message.specs.declared.message.TheConstants.{MOST_BITS};
ghost use Rattle.tracking_loops.specs.declared.limits.TheConstants.{MOST_SUM};

use lane_correlator::Counts;
use nav_message::{Message, MessageNews};

/// What is read of a message while the loops are locked. Each lock begins a new one, to which the
/// prompt sums of the dumps after it are pushed; where the lock ends it is dropped. It stands for
/// the dumps of the loops.
#[derive(Debug, Drop)]
pub struct LockedMessage {
    message: Option<Message>,
}

impl LockedMessage {
    ghost use Rattle.channels.specs.LockedMessages.{StandsFor, bit_count};

    /// There is none before the first dump.
    pub fn new() -> LockedMessage
        ensures stands { StandsFor [] result }
        ensures none { bit_count result ≡ 0 }
    {
        LockedMessage { message: None }
    }

    /// Takes the sums of the next dump, each at most `MOST_SUM` in size, and whether the loops are
    /// locked with it. The message's news replace `news`.
    pub fn take(&mut self, counts: &Counts, is_locked: bool, news: &mut MessageNews)
        requires small { AreWithin MOST_SUM (counts_in counts.now) }
        requires room { bit_count self.old < MOST_BITS }
        ensures counted { bit_count self.new ≤ bit_count self.old + 1 }
        ensures stands { (dumps : List DefinedCounts) → StandsFor dumps self.old
            → lock.is_locked (dumps ++ counts_in counts.now ∷ []) ≡ is_locked
            → StandsFor (dumps ++ counts_in counts.now ∷ []) self.new }
        ensures news { (dumps : List DefinedCounts) → StandsFor dumps self.old
            → lock.is_locked (dumps ++ counts_in counts.now ∷ []) ≡ is_locked
            → events_in news.new ≡ push_events (pushes_of (dumps ++ counts_in counts.now ∷ [])) }
    {
        if !is_locked {
            // Some 8 KB are only written where a message ends.
            if self.message.is_some() {
                self.message = None;
            }
            news.clear();
            return;
        }
        match &mut self.message {
            Some(message) => message.push(counts.ip, news),
            None => {
                self.begin();
                news.clear();
            }
        }
    }

    /// Begins a message with a lock. It isn't inlined, since a message is large and this comes
    /// rarely.
    #[cold]
    #[inline(never)]
    fn begin(&mut self)
        ensures stands { (dumps : List DefinedCounts) → lock.is_locked dumps ≡ true
            → pushes_of dumps ≡ [] → StandsFor dumps self.new }
        ensures none { bit_count self.new ≡ 0 }
    {
        self.message = Some(Message::new());
    }

    /// Whether the edge of the message's bits is found.
    pub fn has_edge(&self) -> bool
        ensures { (dumps : List DefinedCounts) → StandsFor dumps self.now
            → result ≡ has_edge (pushes_of dumps) }
    {
        match &self.message {
            Some(message) => message.has_edge(),
            None => false,
        }
    }
}
