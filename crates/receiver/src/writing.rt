//! The lines of a run, in their order. Each is put to an output.

ghost use Rattle.std.specs.Prelude.{◌≡◌, ◌<◌, ◌≤◌, [], map, OnOk, IfOk};
ghost use Rattle.definitions.specs.Lines.{as_bytes, ended_line};
ghost use Rattle.channel_slots.specs.BankStates.{share_of};
ghost use Rattle.slot_protocol.specs.Commands.{slot_of};
ghost use Rattle.slot_protocol.specs.Events.{line_of};
ghost use Rattle.receiver.specs.LastLines.{all_ends, last_text};
ghost use Rattle.receiver.specs.Outputs.{held, promised, Adds, Puts, Writes};
ghost use Rattle.receiver.specs.Runs.{AddsAnswers, PutsNext};
ghost use Rattle.receiver.specs.Sessions.{packing_in, time_of, until_next, lines_left, TakesNext};

use crate::due::Due;
use crate::faults::Stop;
use crate::output::Output;
use crate::session::Session;
use devices::{DeviceFault, Sink};
use printed_lines::{Line, end_line, event_line};
use slot_protocol::SlotEvent;

/// Puts the lines of the slots' events.
pub fn put_events<W: Sink>(events: &[SlotEvent], out: &mut Output<W>) -> Result<(), DeviceFault>
    ensures adds { Adds (promised W.Sink out.old) (promised W.Sink out.new)
        (as_bytes (map line_of events.now)) result }
    ensures writes { Writes W.Sink out.old out.new result }
{
    for event in events {
        put_event(event, out)?;
    }
    Ok(())
}

/// Puts the line of an event. It stays a call, since most runs have no event, and the room for the
/// line is large.
#[inline(never)]
fn put_event<W: Sink>(event: &SlotEvent, out: &mut Output<W>) -> Result<(), DeviceFault>
    ensures puts { Puts (promised W.Sink out.old) (promised W.Sink out.new)
        (ended_line (line_of event.now)) result }
    ensures writes { Writes W.Sink out.old out.new result }
{
    out.put(&event_line(event))
}

/// Puts the answers that are left at this time.
pub fn put_answers<W: Sink>(session: &mut Session, out: &mut Output<W>) -> Result<(), DeviceFault>
    ensures packing { packing_in session.new ≡ packing_in session.old }
    ensures time { time_of session.new ≡ time_of session.old }
    ensures ready { OnOk result (0 < until_next session.new) }
    ensures adds { AddsAnswers session.old session.new (promised W.Sink out.old)
        (promised W.Sink out.new) result }
    ensures writes { Writes W.Sink out.old out.new result }
{
    while let Some(due) = session.next_due() {
        put_answer(session, due, out)?;
    }
    Ok(())
}

/// Answers an entry that was taken, and puts the line of the answer. It stays a call, since most
/// runs have no answer, and the room for the line is large.
#[inline(never)]
fn put_answer<W: Sink>(
    session: &mut Session,
    due: Due,
    out: &mut Output<W>,
) -> Result<(), DeviceFault>
    requires first { 1 ≤ due.client }
    requires slot { IfOk due.what (λ command.
        slot_of command < share_of session.old.bank due.client) }
    ensures packing { packing_in session.new ≡ packing_in session.old }
    ensures time { time_of session.new ≡ time_of session.old }
    ensures left { lines_left session.new ≡ lines_left session.old }
    ensures puts { (before : Session) → TakesNext before due session.old
        → PutsNext before session.new (promised W.Sink out.old) (promised W.Sink out.new) result }
    ensures writes { Writes W.Sink out.old out.new result }
{
    let mut line = Line::blank();
    session.answer(due, &mut line);
    out.put(&line)
}

/// Puts `end` for each client, after all lines.
fn put_ends<W: Sink>(session: &Session, out: &mut Output<W>) -> Result<(), DeviceFault>
    ensures adds { Adds (promised W.Sink out.old) (promised W.Sink out.new)
        (all_ends session.now) result }
    ensures writes { Writes W.Sink out.old out.new result }
{
    for client in 0..session.clients() {
        out.put(&end_line(client + 1, session.time()))?;
    }
    Ok(())
}

/// Puts what comes last for a stop: the ends, where all was read.
fn put_last<W: Sink>(session: &Session, stop: Stop, out: &mut Output<W>) -> Result<(), DeviceFault>
    ensures adds { Adds (promised W.Sink out.old) (promised W.Sink out.new)
        (last_text stop session.now) result }
    ensures writes { Writes W.Sink out.old out.new result }
{
    match stop {
        Stop::AtEnd => put_ends(session, out),
        Stop::ReadFailed | Stop::PastLimit => Ok(()),
    }
}

/// Puts what comes last for a stop, writes all that is held back, and flushes.
pub fn finish<W: Sink>(
    session: &Session,
    stop: Stop,
    out: &mut Output<W>,
) -> Result<(), DeviceFault>
    ensures none { OnOk result (held out.new ≡ []) }
    ensures adds { Adds (promised W.Sink out.old) (promised W.Sink out.new)
        (last_text stop session.now) result }
    ensures writes { Writes W.Sink out.old out.new result }
{
    put_last(session, stop, out)?;
    out.finish()
}
