//! A seat of a bank: a slot, with whose it is.

ghost use Rattle.std.specs.Prelude.{◌≤◌, ◌<◌, ◌+◌, ◌*◌};
ghost use Rattle.channel_slots.specs.Banks.{SeatGoes};
ghost use Rattle.channel_slots.specs.Slots.{IsReadyIn, next_event};
ghost use Rattle.channel_slots.specs.Timelines.{count_of, events_in};
ghost use Rattle.channel_slots.specs.declared.slot.TheConstants.{SLOT_EVENTS};
ghost use Rattle.channel_slots.specs.declared.timeline.TheConstants.{RUN_EVENTS};
ghost use Rattle.channels.specs.Windows.{IsSame, end_of};

use crate::slot::{SLOT_EVENTS, Slot};
use crate::timeline::Timeline;
use ca_codes::CodeBook;
use channels::Window;

/// A seat of a bank: a slot, with the number of its client and its own. Clients are numbered from
/// 1, and the slots of each from 0.
#[derive(Debug, Drop)]
pub struct Seat {
    pub client: u8,
    pub number: u8,
    pub slot: Slot,
}

impl Seat {
    /// Goes to the last event of the slot that comes within a window, and puts all of them by time.
    /// The samples after it wait.
    pub fn run(&mut self, window: &mut Window, book: &mut CodeBook, timeline: &mut Timeline)
        requires ready { IsReadyIn window.old (end_of window.old) self.old.slot }
        requires fits { count_of timeline.old + 2 * SLOT_EVENTS ≤ RUN_EVENTS }
        ensures goes { SeatGoes window.old self.old self.new (events_in timeline.old)
            (events_in timeline.new) }
        ensures rests { end_of window.old < next_event self.new.slot }
        ensures same { IsSame window.old window.new }
    {
        let end = window.end();
        while self.slot.next_event() <= end {
            if let Some(news) = self.slot.take(end, window, book) {
                timeline.put_news(self.client, self.number, news, window.dump());
            }
        }
    }
}
