//! The script of one client, entry by entry.

ghost use Rattle.std.specs.Prelude.{◌≡◌, [], IsNone};

use client_commands::{Script, Timed};

/// What is left of a client's script: the entry that is next, and the lines after it.
#[derive(Drop)]
pub struct Queue<'a> {
    next: Option<Timed>,
    rest: Script<'a>,
    ghost ended: { IsNone next → rest ≡ [] },
}

impl<'a> Queue<'a> {
    ghost use Rattle.std.specs.Prelude.{◌≤◌, ◌∷◌, IfSome};
    ghost use Rattle.client_commands.specs.Entries.{entry_in};
    ghost use Rattle.slot_protocol.specs.declared.command.TheConstants.{MOST_SLOTS};
    ghost use Rattle.definitions.specs.Receiver.{entries_of};
    ghost use Rattle.receiver.specs.Clients.{client_with};
    ghost use Rattle.receiver.specs.Queues.{left_of, NoneDue, gap};

    /// All entries of the script of a client with a share of the slots.
    pub fn new(script: &'a [u8], share: u8) -> Queue<'a>
        requires some { 1 ≤ share }
        requires most { share ≤ MOST_SLOTS }
        ensures { left_of result ≡ entries_of (client_with share script.now) }
    {
        let mut rest = Script::new(script, share);
        let next = rest.next();
        Queue { next, rest }
    }

    /// Takes the entry that is next, where it stands at this time or before it.
    pub fn take_due(&mut self, now: u64) -> Option<Timed>
        ensures some { IfSome result (λ timed. left_of self.old
            ≡ entry_in timed ∷ left_of self.new) }
        ensures due { IfSome result (λ timed. timed.time ≤ now) }
        ensures none { IsNone result → NoneDue now (left_of self.old) }
        ensures kept { IsNone result → self.new ≡ self.old }
    {
        let due = self.next.filter(|timed| timed.time <= now)?;
        self.next = self.rest.next();
        Some(due)
    }

    /// How many samples there are until the entry that is next, and more than any run has where
    /// there is none.
    pub fn gap(&self, now: u64) -> u64
        ensures { result ≡ gap now (left_of self.now) }
    {
        match &self.next {
            Some(timed) => timed.time.saturating_sub(now),
            None => u64::MAX,
        }
    }
}

// The rooms of an array that no script was put into.
impl Default for Queue<'_> {
    fn default() -> Self {
        Queue::new(&[], 1)
    }
}
