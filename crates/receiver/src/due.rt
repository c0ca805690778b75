//! An entry of a script whose time has come.

ghost use Rattle.std.specs.Prelude.{◌≤◌, ◌<◌, IfOk};
ghost use Rattle.channel_slots.specs.BankStates.{share_of};
ghost use Rattle.slot_protocol.specs.Commands.{slot_of};
ghost use Rattle.receiver.specs.Sessions.{Answers};

use channel_slots::{Bank, Command};
use client_commands::LineRefusal;
use printed_lines::Line;

/// An entry of a client's script that is to be answered now.
#[derive(Drop)]
pub struct Due {
    pub client: u8,
    pub what: Result<Command, LineRefusal>,
}

impl Due {
    /// Makes a line that of the answer, with its end. A refused line never reaches the bank.
    pub fn answer(self, bank: &mut Bank, line: &mut Line)
        requires first { 1 ≤ self.client }
        requires slot { IfOk self.what (λ command.
            slot_of command < share_of bank.old self.client) }
        ensures { Answers bank.old bank.new self line.new }
    {
        let Due { client, what } = self;
        let time = bank.time();
        match what {
            Ok(command) => {
                let slot = command.slot().get();
                let answer = bank.command(client, command);
                line.make_answer(client, time, slot, &answer);
            }
            Err(refusal) => line.make_refusal(client, time, refusal.number()),
        }
    }
}
