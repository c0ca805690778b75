//! The words of the events that slots emit.

ghost use Rattle.std.specs.Prelude.{◌≡◌, ◌+◌, ◌*◌};
ghost use Rattle.definitions.specs.Texts.{event_text};
ghost use Rattle.definitions.specs.Events.{acquired, count, gap};
ghost use Rattle.acquisition.specs.Cells.{cell_in};
ghost use Rattle.std.specs.Prelude.{◌≤◌, length, codes, if◌then◌else◌};
ghost use Rattle.printed_lines.specs.declared.events.TheConstants.{ACQUIRED_BYTES};
ghost use Rattle.printed_lines.specs.declared.words.TheConstants.{NUMBER_BYTES};
ghost use Rattle.lane_correlator.specs.Counting.{counts_in};
ghost use Rattle.slot_protocol.specs.Events.{event_in};
ghost use Rattle.printed_lines.specs.Room.{HasRoom, TakesUp};
ghost use Rattle.printed_lines.specs.SpacedWords.{with_word};
ghost use Rattle.printed_lines.specs.declared.events.TheConstants.{COUNTS_BYTES, EVENT_BYTES};
ghost use Rattle.printed_lines.specs.declared.words.TheConstants.{WORD_BYTES, KIND_BYTES};

use crate::almanacs::put_almanacs;
use crate::pages::{PAGE_BYTES, put_report};
use crate::subframe_words::put_subframe;
use crate::words::{KIND_BYTES, Line, WORD_BYTES};
use acquisition::Cell;
use lane_correlator::Counts;
use slot_protocol::Event;

/// The most bytes that the words of an event take up: those of a page.
pub const EVENT_BYTES: usize = PAGE_BYTES;

/// The most bytes that the words of what an acquisition names take up.
pub const ACQUIRED_BYTES: usize = KIND_BYTES + 5 * WORD_BYTES;

/// The most bytes that the words of a dump take up.
pub const COUNTS_BYTES: usize = KIND_BYTES + 6 * WORD_BYTES;

/// Adds the words of an event.
pub(crate) fn put_event(line: &mut Line, slot: u8, event: &Event)
    requires room { HasRoom EVENT_BYTES line.old }
    ensures text { line.new ≡ with_word line.old (event_text slot (event_in event.now)) }
    ensures longer { TakesUp EVENT_BYTES line.old line.new }
{
    match event {
        Event::Acquired { prn, cell } => put_acquired(line, slot, prn.get(), cell),
        Event::Count(counts) => put_counts(line, slot, *counts),
        Event::Lock => line.kind(b"lock", slot),
        Event::Unlock => line.kind(b"unlock", slot),
        Event::Lost => line.kind(b"lost", slot),
        Event::Bits => line.kind(b"bits", slot),
        Event::Gap(bits) => put_gap(line, slot, *bits),
        Event::Sub(subframe) => put_subframe(line, slot, subframe),
        Event::Page(report) => put_report(line, slot, report),
        Event::Almanacs(set) => put_almanacs(line, slot, set),
    }
}

/// Adds the words of what an acquisition names, for a satellite.
fn put_acquired(line: &mut Line, slot: u8, prn: u8, cell: &Cell)
    requires room { HasRoom ACQUIRED_BYTES line.old }
    ensures text { line.new
        ≡ with_word line.old (event_text slot (acquired prn (cell_in cell.now))) }
    ensures longer { TakesUp ACQUIRED_BYTES line.old line.new }
{
    line.kind(b"acq", slot);
    line.number(prn.into());
    line.word(word_of(cell.found));
    line.signed(cell.bin.into());
    line.number(cell.half.get().into());
    line.number(cell.power);
}

/// The word of whether a signal was found.
fn word_of(found: bool) -> &'static [u8]
    ensures word { result.now ≡ (if found then codes "found" else codes "none") }
    ensures short { length result.now ≤ NUMBER_BYTES }
{
    if found { b"found" } else { b"none" }
}

/// Adds the words of a dump.
fn put_counts(line: &mut Line, slot: u8, counts: Counts)
    requires room { HasRoom COUNTS_BYTES line.old }
    ensures text { line.new ≡ with_word line.old (event_text slot (count (counts_in counts))) }
    ensures longer { TakesUp COUNTS_BYTES line.old line.new }
{
    line.kind(b"count", slot);
    line.signed(counts.ie.into());
    line.signed(counts.qe.into());
    line.signed(counts.ip.into());
    line.signed(counts.qp.into());
    line.signed(counts.il.into());
    line.signed(counts.ql.into());
}

/// Adds the words of a gap of so many bits.
fn put_gap(line: &mut Line, slot: u8, bits: u64)
    requires room { HasRoom (KIND_BYTES + WORD_BYTES) line.old }
    ensures text { line.new ≡ with_word line.old (event_text slot (gap bits)) }
    ensures longer { TakesUp (KIND_BYTES + WORD_BYTES) line.old line.new }
{
    line.kind(b"gap", slot);
    line.number(bits);
}
