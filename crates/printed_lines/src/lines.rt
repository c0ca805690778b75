//! Whole lines, each with its end.

ghost use Rattle.std.specs.Prelude.{◌≡◌, codes};
ghost use Rattle.definitions.specs.Lines.{ended_line};
ghost use Rattle.definitions.specs.Texts.{for_client, at_time, answer_text, refusal_text};
ghost use Rattle.slot_protocol.specs.Answers.{answer_in};
ghost use Rattle.slot_protocol.specs.Events.{line_of};

use crate::answers::{put_answer, put_refusal};
use crate::events::put_event;
use crate::words::Line;
use slot_protocol::{Answer, SlotEvent};

/// The line of an event, with its end.
pub fn event_line(event: &SlotEvent) -> Line
    ensures { result ≡ ended_line (line_of event.now) }
{
    let mut line = Line::new(event.client, event.time);
    put_event(&mut line, event.slot, &event.event);
    line.end();
    line
}

/// A client's last line, with its end.
pub fn end_line(client: u8, time: u64) -> Line
    ensures { result ≡ ended_line (for_client client (at_time time (codes "end"))) }
{
    let mut line = Line::new(client, time);
    line.word(b"end");
    line.end();
    line
}

impl Line {
    /// Makes the line that of what a client's slot answers at a time, with its end.
    pub fn make_answer(&mut self, client: u8, time: u64, slot: u8, answer: &Answer)
        ensures { self.new ≡ ended_line
            (for_client client (at_time time (answer_text slot (answer_in answer.now)))) }
    {
        self.begin(client, time);
        put_answer(self, slot, answer);
        self.end();
    }

    /// Makes the line one that refuses a line of a client's script at a time, with its end. The
    /// number is that of the refusal.
    pub fn make_refusal(&mut self, client: u8, time: u64, number: u8)
        ensures { self.new ≡ ended_line (for_client client (at_time time (refusal_text number))) }
    {
        self.begin(client, time);
        put_refusal(self, number);
        self.end();
    }
}
