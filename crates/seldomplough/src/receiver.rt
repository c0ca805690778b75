//! A receiver over packed samples.

ghost use Rattle.std.specs.Prelude.{◌≡◌, ◌≤◌, ◌<◌, ◌+◌, ◌*◌, ◌↔◌, ◌⊎◌, length, [], Ok, Err, IfOk};
ghost use Rattle.std.specs.Prelude.{IfErr, IsErr};
ghost use Rattle.definitions.specs.Commands.{begin, hold, track, acquire, counts, state, stop};
ghost use Rattle.definitions.specs.Runs.{is_share};
ghost use Rattle.definitions.specs.Samples.{samples_per_byte};
ghost use Rattle.sample_planes.specs.declared.planes.TheConstants.{MOST_TIME};
ghost use Rattle.channel_slots.specs.declared.open_fault.OpenFault.TheVariants as open_faults;
ghost use Rattle.channel_slots.specs.declared.seats.TheConstants.{MOST_CLIENTS};
ghost use Rattle.sample_planes.specs.Packings.{packing_of};
ghost use Rattle.sample_planes.specs.declared.planes.TheConstants.{MAX_SAMPLES};
ghost use Rattle.seldomplough.specs.Answers.{with_outcome, with_state, outcome_of, state_of, Asks};

use crate::too_many_samples::TooManySamples;
use acquisition::{Plan, Signal};
use channel_slots::{Bank, MOST_TIME, OpenFault, Timeline};
use oscillators::Settings;
use sample_planes::{Format, MAX_SAMPLES, PackedSamples};
use slot_protocol::{Answer, Command, Refusal, SlotEvent, SlotNo, SlotState};
use std::alloc::Global;
use std::fmt::{self, Debug, Formatter, Write};

/// The slots of one to eight clients over one recording, one to eight for each client, and the
/// events of the samples that came last.
#[derive(Drop)]
pub struct Receiver {
    bank: Bank,
    timeline: Timeline,
}

impl Receiver {
    ghost use Rattle.std.specs.Prelude.{false};
    ghost use Rattle.std.specs.List.{list_all};
    ghost use Rattle.slot_protocol.specs.Commands.{request_in, slot_of};
    ghost use Rattle.seldomplough.specs.Receivers.{StandsFor, TakesFront, settings_of, shares_of};
    ghost use Rattle.seldomplough.specs.Receivers.{time_of, events_in, packing_in};

    /// Idle slots for one to `MOST_CLIENTS` clients, which are numbered from 1 and have shares of 1
    /// to `MOST_SLOTS` slots. It takes all memory that the receiver needs.
    ///
    /// # Errors
    ///
    /// The number of clients is outside 1 to 8, a share is outside 1 to 8, or there is no memory.
    /// The number of clients is checked first, then the shares.
    pub fn open(alloc: Global, settings: Settings, shares: &[u8]) -> Result<Receiver, OpenFault>
        ensures clients { (result ≡ Err open_faults.Clients)
            ↔ ((length shares.now ≡ 0) ⊎ (MOST_CLIENTS < length shares.now)) }
        ensures share { (result ≡ Err open_faults.Share) ↔ ((0 < length shares.now)
            × (length shares.now ≤ MOST_CLIENTS) × (list_all is_share shares.now ≡ false)) }
        ensures stands { IfOk result (λ receiver. StandsFor settings [] (λ _ _. []) receiver) }
        ensures settings { IfOk result (λ receiver. settings_of receiver ≡ settings) }
        ensures given { IfOk result (λ receiver. shares_of receiver ≡ shares.now) }
        ensures time { IfOk result (λ receiver. time_of receiver ≡ 0) }
        ensures events { IfOk result (λ receiver. events_in receiver ≡ []) }
    {
        let bank = Bank::open(alloc, settings, shares)?;
        let timeline = Timeline::new(alloc)?;
        Ok(Receiver { bank, timeline })
    }

    /// How the samples are packed that the receiver takes.
    #[must_use]
    pub fn format(&self) -> Format
        ensures { packing_of result ≡ packing_in self.now }
    {
        self.bank.format()
    }

    /// The number of samples that the receiver has taken, at most `MOST_TIME`.
    #[must_use]
    pub fn time(&self) -> u64
        ensures taken { result ≡ time_of self.now }
        ensures early { result ≤ MOST_TIME }
    {
        self.bank.time()
    }

    /// What the slots emit with the samples that `take` took last: by time, then by client, then by
    /// slot.
    #[must_use]
    pub fn events(&self) -> &[SlotEvent]
        ensures { result.now ≡ events_in self.now }
    {
        self.timeline.events()
    }

    /// Takes samples from the front of some bytes, and gives the bytes after them. It takes all of
    /// them, or as many as have `MAX_SAMPLES` samples, or as many as come to `MOST_TIME`. The
    /// events are those over these samples from then on, and nothing of before. Bytes may be cut
    /// anywhere, since each of them has whole samples.
    ///
    /// # Errors
    ///
    /// There are bytes, and the samples of the first would be more than `MOST_TIME` with those
    /// before. Then nothing is taken, and nothing has changed.
    pub fn take<'b>(&mut self, bytes: &'b [u8]) -> Result<&'b [u8], TooManySamples>
        ensures taken { IfOk result (λ rest. TakesFront bytes.now rest.now self.old self.new) }
        ensures full { IsErr result ↔ ((0 < length bytes.now)
            × (MOST_TIME < time_of self.old + samples_per_byte (packing_in self.old))) }
        ensures refused { IfErr result (λ _. self.new ≡ self.old) }
    {
        let count = self.fitting(bytes.len());
        // One byte at least, where there is any.
        if count < bytes.len().min(1) {
            return Err(TooManySamples);
        }
        let (front, rest) = bytes.split_at(count);
        let run = PackedSamples::new(self.bank.format(), front);
        self.bank.feed(&run, &mut self.timeline);
        Ok(rest)
    }

    /// How many bytes of as many as there are can be taken at once.
    fn fitting(&self, count: usize) -> usize
        ensures within { result ≤ count }
        ensures short { samples_per_byte (packing_in self.now) * result ≤ MAX_SAMPLES }
        ensures room { time_of self.now + samples_per_byte (packing_in self.now) * result
            ≤ MOST_TIME }
        ensures some { (result ≡ 0) → (0 < count)
            → MOST_TIME < time_of self.now + samples_per_byte (packing_in self.now) }
        ensures most { (result < count)
            → (MAX_SAMPLES < samples_per_byte (packing_in self.now) * result
            + samples_per_byte (packing_in self.now))
            ⊎ (MOST_TIME < time_of self.now + samples_per_byte (packing_in self.now) * result
            + samples_per_byte (packing_in self.now)) }
        ensures none { (0 < result)
            → time_of self.now + samples_per_byte (packing_in self.now) ≤ MOST_TIME }
    {
        let per_byte = self.bank.format().per_byte();
        let room = (MOST_TIME - self.bank.time()) / per_byte as u64;
        let most = room.min((MAX_SAMPLES / per_byte) as u64);
        count.min(most as usize)
    }

    /// Does what a client asks of one of its slots, and answers it: a refused command changes
    /// nothing. One for a slot that the client doesn't have is refused.
    pub fn command(&mut self, client: u8, command: Command) -> Answer
        ensures { Asks client (slot_of command) (request_in command) result self.old self.new }
    {
        self.bank.command(client, command)
    }

    /// Has a slot follow a satellite at a fixed Doppler shift, from a half chip of its code on.
    ///
    /// # Errors
    ///
    /// The slot isn't idle, or the client has no such slot. Then nothing has changed.
    pub fn hold(&mut self, client: u8, slot: SlotNo, signal: Signal) -> Result<(), Refusal>
        ensures { Asks client slot (begin (hold signal.prn signal.doppler signal.half))
            (with_outcome result) self.old self.new }
    {
        outcome(self.command(client, Command::Hold { slot, signal }))
    }

    /// Has a slot track a satellite, from a Doppler shift and a half chip of its code on: its loops
    /// steer it, and its message is read.
    ///
    /// # Errors
    ///
    /// The slot isn't idle, or the client has no such slot. Then nothing has changed.
    pub fn track(&mut self, client: u8, slot: SlotNo, signal: Signal) -> Result<(), Refusal>
        ensures { Asks client slot (begin (track signal.prn signal.doppler signal.half))
            (with_outcome result) self.old self.new }
    {
        outcome(self.command(client, Command::Track { slot, signal }))
    }

    /// Has a slot search for a satellite, and track it where it is found.
    ///
    /// # Errors
    ///
    /// The slot isn't idle, or the client has no such slot. Then nothing has changed.
    pub fn acquire(&mut self, client: u8, slot: SlotNo, plan: Plan) -> Result<(), Refusal>
        ensures { Asks client slot (begin (acquire plan)) (with_outcome result) self.old self.new }
    {
        outcome(self.command(client, Command::Acquire { slot, plan }))
    }

    /// Has a slot emit its next `n` counts, in place of those asked for before; 0 ends them.
    ///
    /// # Errors
    ///
    /// The slot is idle, or the client has no such slot. Then nothing has changed.
    pub fn counts(&mut self, client: u8, slot: SlotNo, n: u32) -> Result<(), Refusal>
        ensures { Asks client slot (counts n) (with_outcome result) self.old self.new }
    {
        outcome(self.command(client, Command::Counts { slot, n }))
    }

    /// Makes a slot idle.
    ///
    /// # Errors
    ///
    /// The slot is idle, or the client has no such slot. Then nothing has changed.
    pub fn stop(&mut self, client: u8, slot: SlotNo) -> Result<(), Refusal>
        ensures { Asks client slot stop (with_outcome result) self.old self.new }
    {
        outcome(self.command(client, Command::Stop { slot }))
    }

    /// What a slot shows of itself.
    ///
    /// # Errors
    ///
    /// The client has no such slot.
    pub fn state(&mut self, client: u8, slot: SlotNo) -> Result<SlotState, Refusal>
        ensures { Asks client slot state (with_state result) self.old self.new }
    {
        shown(self.command(client, Command::State { slot }))
    }
}

impl Debug for Receiver {
    /// How many samples it has taken.
    fn fmt<W: Write>(&self, f: &mut Formatter<W>) -> fmt::Result {
        write!(f, "Receiver {{ time: {}, .. }}", self.time())
    }
}

/// What became of a command other than `state`.
fn outcome(answer: Answer) -> Result<(), Refusal>
    ensures { result ≡ outcome_of answer }
{
    match answer {
        Answer::Refused(refusal) => Err(refusal),
        Answer::Accepted | Answer::State(_) => Ok(()),
    }
}

/// What `state` shows. No slot accepts it without showing itself.
fn shown(answer: Answer) -> Result<SlotState, Refusal>
    ensures { result ≡ state_of answer }
{
    match answer {
        Answer::State(state) => Ok(state),
        Answer::Refused(refusal) => Err(refusal),
        Answer::Accepted => Ok(SlotState::Idle),
    }
}
