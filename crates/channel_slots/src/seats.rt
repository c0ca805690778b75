//! The seats of a bank: the slots of all clients, in the order of their clients and numbers.

ghost use Rattle.std.specs.Prelude.{◌≡◌, ◌≤◌, ◌<◌, ◌+◌, ◌*◌, ℕ, length, IfOk, OnOk};
ghost use Rattle.std.specs.Box.{boxed_slice_items};
ghost use Rattle.std.specs.List.{AllByRecursion};
ghost use Rattle.definitions.specs.Banks.{layout};
ghost use Rattle.slot_protocol.specs.declared.command.TheConstants.{MOST_SLOTS};
ghost use Rattle.channels.specs.Windows.{IsSame, end_of};
ghost use Rattle.channel_slots.specs.Banks.{keys_of, AllReady, AllRest, RunsAll, PassAll};
ghost use Rattle.channel_slots.specs.Banks.{total, AddsIdle, AllIdle};
ghost use Rattle.channel_slots.specs.Timelines.{count_of, events_in};
ghost use Rattle.channel_slots.specs.declared.seats.TheConstants.{MOST_CLIENTS};
ghost use Rattle.channel_slots.specs.declared.slot.TheConstants.{SLOT_EVENTS};
ghost use Rattle.channel_slots.specs.declared.timeline.TheConstants.{RUN_EVENTS};

use crate::seat::Seat;
use crate::slot::{NEVER, SLOT_EVENTS, Slot};
use crate::timeline::Timeline;
use acquisition::SearchRoom;
use ca_codes::CodeBook;
use channels::Window;
use slot_protocol::MOST_SLOTS;
use std::alloc::{AllocError, Global};
use std::boxed::BoxedSlice;

/// The most clients.
pub const MOST_CLIENTS: usize = 8;

/// Idle slots for clients that have these shares of them, by client and then by slot.
pub fn idle_seats(alloc: Global, shares: &[u8]) -> Result<BoxedSlice<Seat>, AllocError>
    requires clients { length shares.now ≤ MOST_CLIENTS }
    requires few { AllByRecursion (λ share. share ≤ MOST_SLOTS) shares.now }
    ensures keys { IfOk result (λ seats. keys_of (boxed_slice_items seats) ≡ layout shares.now) }
    ensures idle { IfOk result (λ seats. AllIdle (boxed_slice_items seats)) }
{
    prove!(
        shares.len() <= MOST_CLIENTS,
        "idle_seats requires shares.len() <= MOST_CLIENTS"
    );
    let mut seats = Vec::with_capacity(alloc, slots_in(shares))?;
    for index in 0..shares.len() {
        add_idle(alloc, &mut seats, index as u8 + 1, shares[index])?;
    }
    Ok(seats.into_boxed_slice())
}

/// The number of slots that clients with some shares have together.
pub fn slots_in(shares: &[u8]) -> usize
    requires clients { length shares.now ≤ MOST_CLIENTS }
    requires few { AllByRecursion (λ share. share ≤ MOST_SLOTS) shares.now }
    ensures { result ≡ total shares.now }
{
    prove!(
        shares.len() <= MOST_CLIENTS,
        "slots_in requires shares.len() <= MOST_CLIENTS"
    );
    let mut slots = 0;
    for share in shares {
        slots += *share as usize;
    }
    slots
}

/// Adds the idle slots of a client, each with its room for a search.
fn add_idle(alloc: Global, seats: &mut Vec<Seat>, client: u8, share: u8) -> Result<(), AllocError>
    ensures { OnOk result (AddsIdle client share seats.old.items seats.new.items) }
{
    for number in 0..share {
        let room = SearchRoom::new(alloc)?;
        seats.push(Seat {
            client,
            number,
            slot: Slot::new(room),
        })?;
    }
    Ok(())
}

/// Each slot in turn goes to its last event that comes within a window, and puts all of them by
/// time. None of the slots has one before sample `next_event` of the recording: where the window
/// ends before it, none goes. It answers a number of samples past the window's end, the least with
/// which one of them has its next event; that none has one before it is proved.
pub fn run_all(
    seats: &mut [Seat],
    window: &mut Window,
    book: &mut CodeBook,
    next_event: u64,
    timeline: &mut Timeline,
) -> u64
    requires ready { AllReady window.old seats.old }
    requires rest { AllRest next_event seats.old }
    requires fits { count_of timeline.old + SLOT_EVENTS * (length seats.old + 1) ≤ RUN_EVENTS }
    ensures runs { RunsAll window.old seats.old seats.new (events_in timeline.old)
        (events_in timeline.new) }
    ensures rest { AllRest result seats.new }
    ensures later { end_of window.old < result }
    ensures same { IsSame window.old window.new }
{
    if window.end() < next_event {
        return next_event;
    }
    let mut earliest = NEVER;
    for seat in seats.iter_mut() {
        seat.run(window, book, timeline);
        earliest = earliest.min(seat.slot.next_event());
    }
    earliest
}

/// Each slot takes the samples of a window that wait, none of which brings anything.
pub fn pass_all(seats: &mut [Seat], window: &mut Window, book: &mut CodeBook)
    requires ready { AllReady window.old seats.old }
    requires rest { (next : ℕ) × (end_of window.old < next) × AllRest next seats.old }
    ensures passes { PassAll window.old seats.old seats.new }
    ensures same { IsSame window.old window.new }
{
    let end = window.end();
    for seat in seats.iter_mut() {
        seat.slot.take(end, window, book);
    }
}
