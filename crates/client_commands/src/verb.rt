//! The verbs, and the commands that they ask for with the words after them.

ghost use Rattle.std.specs.Prelude.{◌≡◌, ◌≤◌, ◌+◌, Some, find, option_map, length, bytes_eq};
ghost use Rattle.definitions.specs.Scripts.{command_with, verbs};
ghost use Rattle.definitions.specs.Lines.{words_of};
ghost use Rattle.client_commands.specs.Entries.{result_in};
ghost use Rattle.client_commands.specs.Reading.{verb_in};
ghost use Rattle.client_commands.specs.declared.words.TheConstants.{MOST_WORDS};
ghost use Rattle.slot_protocol.specs.declared.command.TheConstants.{MOST_SLOTS};

use crate::plan::read_plan;
use crate::refusal::LineRefusal;
use crate::signal::read_signal;
use crate::words::Words;
use slot_protocol::Command;

/// A verb of a script's line: what a client asks of a slot.
#[derive(Clone, Copy)]
pub(crate) enum Verb {
    /// Follow a satellite at a fixed Doppler shift.
    Hold,
    /// Track a satellite from a Doppler shift on.
    Track,
    /// Search for a satellite, and track it where it is found.
    Acquire,
    /// Print the next dumps.
    Counts,
    /// Show the slot.
    State,
    /// Make the slot idle.
    Stop,
}

impl Verb {
    /// The verb with a name, if there is one.
    pub(crate) fn with_name(name: &[u8]) -> Option<Verb>
        ensures { option_map verb_in result ≡ find (λ v. bytes_eq v.name name.now) verbs }
    {
        match name {
            b"hold" => Some(Verb::Hold),
            b"track" => Some(Verb::Track),
            b"acquire" => Some(Verb::Acquire),
            b"counts" => Some(Verb::Counts),
            b"state" => Some(Verb::State),
            b"stop" => Some(Verb::Stop),
            _ => None,
        }
    }

    /// How many words follow the verb.
    fn word_count(self) -> usize
        ensures same { result ≡ length (verb_in self).ranges + 1 }
        ensures few { result ≤ MOST_WORDS }
    {
        match self {
            Verb::Hold | Verb::Track => 4,
            Verb::Acquire => 6,
            Verb::Counts => 2,
            Verb::State | Verb::Stop => 1,
        }
    }

    /// The command that the words after the verb ask for, of a client with a share of the slots.
    pub(crate) fn command(self, line: &[u8], share: u8) -> Result<Command, LineRefusal>
        requires some { 1 ≤ share }
        requires most { share ≤ MOST_SLOTS }
        ensures { result_in result ≡ command_with share (Some (verb_in self)) (words_of line.now) }
    {
        let mut words = Words::split(line, self.word_count())?;
        let slot = words.slot(share)?;
        match self {
            Verb::Hold => Ok(Command::Hold {
                slot,
                signal: read_signal(&mut words)?,
            }),
            Verb::Track => Ok(Command::Track {
                slot,
                signal: read_signal(&mut words)?,
            }),
            Verb::Acquire => Ok(Command::Acquire {
                slot,
                plan: read_plan(&mut words)?,
            }),
            Verb::Counts => Ok(Command::Counts {
                slot,
                n: words.dumps()?,
            }),
            Verb::State => Ok(Command::State { slot }),
            Verb::Stop => Ok(Command::Stop { slot }),
        }
    }
}
