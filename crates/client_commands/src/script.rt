//! A script, read entry by entry.

ghost use Rattle.std.specs.Prelude.{◌≡◌, ◌≤◌, ◌∷◌, [], List, IfSome, IsNone};
ghost use Rattle.slot_protocol.specs.declared.command.TheConstants.{MOST_SLOTS};
ghost use Rattle.client_commands.specs.Entries.{entry_in};

use crate::line::entry;
use crate::refusal::LineRefusal;
use crate::words::next_line;
use slot_protocol::{Command, MOST_SLOTS};
use std::marker::Model;

/// What a line asks, and when.
#[derive(Clone, Copy, Debug, PartialEq, Eq)]
pub struct Timed {
    /// The time in samples, at most 2^40.
    pub time: u64,
    /// A command, or why the line is refused.
    pub what: Result<Command, LineRefusal>,
}

/// What is left of a script. Clauses see it as the entries to come.
#[derive(Drop)]
pub struct Script<'a> {
    /// The lines that are left.
    text: &'a [u8],
    /// How many slots the client has.
    share: u8,
    /// The time of the line before, or 0.
    before: u64,
}

impl<'a> Model for Script<'a> {
    ghost use Rattle.std.specs.Prelude.{◌≤◌, List};
    ghost use Rattle.definitions.specs.Scripts.{Entry, entries_after, verbs};
    ghost use Rattle.definitions.specs.Lines.{lines_of};
    ghost use Rattle.slot_protocol.specs.declared.command.TheConstants.{MOST_SLOTS};

    ghost Value = { List Entry };

    ghost view = { λ s. entries_after verbs s.share s.before (lines_of s.text.now) };

    ghost invariant = { λ s. (1 ≤ s.share) × (s.share ≤ MOST_SLOTS) };
}

impl<'a> Script<'a> {
    ghost use Rattle.definitions.specs.Scripts.{script, verbs};

    /// The script of a client that has a share of 1 to `MOST_SLOTS` slots, from its text: lines,
    /// each ended by a line feed, the last one perhaps not.
    pub fn new(text: &'a [u8], share: u8) -> Script<'a>
        requires some { 1 ≤ share }
        requires most { share ≤ MOST_SLOTS }
        ensures { result ≡ script verbs share text.now }
    {
        prove!(
            1 <= share && share <= MOST_SLOTS,
            "Script::new requires 1 <= share <= MOST_SLOTS"
        );
        Script {
            text,
            share,
            before: 0,
        }
    }

    /// The next entry, or `None` once the text is used up. Lines without words have none.
    pub fn next(&mut self) -> Option<Timed>
        ensures some { IfSome result (λ timed. self.old ≡ entry_in timed ∷ self.new) }
        ensures none { IsNone result → self.old ≡ [] }
        ensures ended { IsNone result → self.new ≡ [] }
    {
        while let Some((line, rest)) = next_line(self.text) {
            self.text = rest;
            if let Some(timed) = entry(line, self.before, self.share) {
                self.before = timed.time;
                return Some(timed);
            }
        }
        None
    }
}
