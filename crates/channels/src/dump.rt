//! A dump, and the news that come with it.

ghost use Rattle.std.specs.Prelude.{◌≡◌};
ghost use Rattle.channels.specs.Dumps.{plain_dump};

use lane_correlator::Counts;
use nav_message::MessageNews;
use tracking_loops::News;

/// The six sums of a segment, and the news that come with them.
#[derive(Clone, Copy, Debug, PartialEq, Eq)]
pub struct Dump {
    /// The sums of the segment.
    pub counts: Counts,
    /// The loops' news of their lock.
    pub lock: News,
    /// The message's news, where the loops are locked.
    pub message: MessageNews,
}

impl Dump {
    /// A dump with its sums alone, without news.
    pub fn plain(counts: Counts) -> Dump
        ensures { result ≡ plain_dump counts }
    {
        Dump {
            counts,
            lock: News::Nothing,
            message: MessageNews::Nothing,
        }
    }

    /// Becomes the dump that `plain` gives. It is large, so only what differs is written.
    pub fn set_plain(&mut self, counts: Counts)
        ensures { self.new ≡ plain_dump counts }
    {
        self.counts = counts;
        self.lock = News::Nothing;
        self.message.clear();
    }
}
