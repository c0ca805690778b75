//! The slots of all clients, with what is left of their scripts.

ghost use Rattle.std.specs.Prelude.{◌≡◌, true, length};
ghost use Rattle.channel_slots.specs.BankStates.{shares_of};
ghost use Rattle.sample_planes.specs.declared.planes.TheConstants.{MOST_TIME};
ghost use Rattle.channel_slots.specs.declared.seats.TheConstants.{MOST_CLIENTS};
ghost use Rattle.sample_planes.specs.Packings.{packing_of};
ghost use Rattle.receiver.specs.Queues.{are_in_shares};
ghost use Rattle.sample_planes.specs.declared.planes.TheConstants.{MAX_SAMPLES};

use crate::due::Due;
use crate::queue::Queue;
use crate::queues::{least_gap, queues_of, take_due};
use arrayvec::ArrayVec;
use channel_slots::{Bank, MOST_CLIENTS, OpenFault, SlotEvent, Timeline};
use oscillators::Settings;
use printed_lines::Line;
use sample_planes::{Format, PackedSamples};
use std::alloc::Global;

/// Room for the script of each client.
pub const QUEUES: usize = MOST_CLIENTS;

/// The slots of all clients, and beside them what is left of the clients' scripts.
#[derive(Drop)]
pub struct Session<'a> {
    bank: Bank,
    queues: ArrayVec<Queue<'a>, QUEUES>,
    /// The slots' events over the last run of samples.
    timeline: Timeline,
    ghost clients: { length queues.items ≡ length (shares_of bank) },
    ghost in_shares: { are_in_shares (shares_of bank) queues.items ≡ true },
}

impl<'a> Session<'a> {
    ghost use Rattle.std.specs.Prelude.{◌≤◌, ◌<◌, ◌+◌, ◌⊎◌, ◌↔◌, ℕ, List, [], ◌++◌};
    ghost use Rattle.std.specs.Prelude.{map, IfSome, IsNone, IfOk, Err};
    ghost use Rattle.definitions.specs.Oscillators.{Settings as DefinedSettings};
    ghost use Rattle.definitions.specs.Samples.{Sample};
    ghost use Rattle.definitions.specs.Receiver.{Client, body_lines, answer_lines};
    ghost use Rattle.slot_protocol.specs.Events.{line_of};
    ghost use Rattle.std.specs.Prelude.{false};
    ghost use Rattle.std.specs.List.{list_all};
    ghost use Rattle.definitions.specs.Runs.{is_share};
    ghost use Rattle.receiver.specs.Clients.{clients_with};
    ghost use Rattle.channel_slots.specs.BankStates.{share_of};
    ghost use Rattle.channel_slots.specs.Timelines.{events_in};
    ghost use Rattle.slot_protocol.specs.Commands.{slot_of};
    ghost use Rattle.receiver.specs.Sessions.{StandsFor, TakesNext, Gives, packing_in, time_of};
    ghost use Rattle.receiver.specs.Sessions.{until_next, lines_left};

    /// A session before the first sample. It takes the memory of the slots.
    pub fn open(
        alloc: Global,
        settings: Settings,
        scripts: &'a [&'a [u8]],
        shares: &[u8],
    ) -> Result<Session<'a>, OpenFault>
        requires each { length shares.now ≡ length scripts.now }
        ensures clients { (result ≡ Err OpenFault.Clients) ↔ ((length scripts.now
            ≡ 0) ⊎ (MOST_CLIENTS < length scripts.now)) }
        ensures share { (result ≡ Err OpenFault.Share) ↔ ((0 < length scripts.now)
            × (length scripts.now ≤ MOST_CLIENTS) × (list_all is_share shares.now ≡ false)) }
        ensures packing { IfOk result (λ session. packing_in session ≡ settings.packing) }
        ensures time { IfOk result (λ session. time_of session ≡ 0) }
        ensures stands { IfOk result (λ session. StandsFor settings
            (clients_with shares.now (map (λ script. script.now) scripts.now)) session []
            (answer_lines settings
            (clients_with shares.now (map (λ script. script.now) scripts.now)) [])) }
    {
        let bank = Bank::open(alloc, settings, shares)?;
        let timeline = Timeline::new(alloc)?;
        Ok(Session {
            bank,
            queues: queues_of(scripts, shares),
            timeline,
        })
    }

    /// The samples so far.
    pub fn time(&self) -> u64
        ensures { result ≡ time_of self.now }
    {
        self.bank.time()
    }

    /// The number of clients.
    pub fn clients(&self) -> u8
        ensures number { result ≡ length (shares_of self.now.bank) }
        ensures few { result ≤ MOST_CLIENTS }
    {
        self.queues.len() as u8
    }

    /// The samples until the next command's time.
    #[tactic(auto, unfolding(crate::specs::Sessions::until_next))]
    pub fn until_next(&self) -> u64
        ensures { result ≡ until_next self.now }
    {
        least_gap(&self.queues, self.bank.time())
    }

    /// How the samples are packed.
    pub fn format(&self) -> Format
        ensures { packing_of result ≡ packing_in self.now }
    {
        self.bank.format()
    }

    /// The slots' events over the last run of samples.
    pub fn events(&self) -> &[SlotEvent]
        ensures { result.now ≡ events_in self.now.timeline }
    {
        self.timeline.events()
    }

    /// Takes a run of samples, none of them past the next command's time, and keeps the slots'
    /// events over it.
    pub fn feed(&mut self, run: &PackedSamples)
        requires packing { run.now.packing ≡ packing_in self.old }
        requires some { 0 < length run.now.samples }
        requires short { length run.now.samples ≤ MAX_SAMPLES }
        requires quiet { length run.now.samples ≤ until_next self.old }
        requires room { time_of self.old + length run.now.samples ≤ MOST_TIME }
        ensures packing { packing_in self.new ≡ packing_in self.old }
        ensures time { time_of self.new ≡ time_of self.old + length run.now.samples }
        ensures stands { (settings : DefinedSettings) (clients : List Client) (xs : List Sample)
            → StandsFor settings clients self.old xs []
            → StandsFor settings clients self.new (xs ++ run.now.samples)
            (answer_lines settings clients (xs ++ run.now.samples)) }
        ensures told { (settings : DefinedSettings) (clients : List Client) (xs : List Sample)
            → StandsFor settings clients self.old xs []
            → body_lines settings (xs ++ run.now.samples) clients
            ≡ body_lines settings xs clients ++ map line_of (events_in self.new.timeline)
            ++ answer_lines settings clients (xs ++ run.now.samples) }
    {
        self.bank.feed(run, &mut self.timeline);
    }

    /// Takes the next entry that is to be answered at this time.
    #[tactic(auto, unfolding(crate::specs::Sessions::until_next))]
    pub fn next_due(&mut self) -> Option<Due>
        ensures packing { packing_in self.new ≡ packing_in self.old }
        ensures time { time_of self.new ≡ time_of self.old }
        ensures first { IfSome result (λ due. 1 ≤ due.client) }
        ensures slot { IfSome result (λ due. IfOk due.what (λ command.
            slot_of command < share_of self.new.bank due.client)) }
        ensures ready { IsNone result → 0 < until_next self.new }
        ensures fewer { IfSome result (λ _. lines_left self.new < lines_left self.old) }
        ensures some { IfSome result (λ due. TakesNext self.old due self.new) }
        ensures none { IsNone result
            → (settings : DefinedSettings) (clients : List Client) (xs : List Sample)
            (waiting : List (List ℕ)) → StandsFor settings clients self.old xs waiting
            → (waiting ≡ []) × StandsFor settings clients self.new xs [] }
    {
        let now = self.bank.time();
        take_due(&mut self.queues, now)
    }

    /// Answers an entry that was taken. Makes a line that of the answer, with its end.
    pub fn answer(&mut self, due: Due, line: &mut Line)
        requires first { 1 ≤ due.client }
        requires slot { IfOk due.what (λ command.
            slot_of command < share_of self.old.bank due.client) }
        ensures packing { packing_in self.new ≡ packing_in self.old }
        ensures time { time_of self.new ≡ time_of self.old }
        ensures left { lines_left self.new ≡ lines_left self.old }
        ensures gives { (before : Session) → TakesNext before due self.old
            → Gives before line.new self.new }
    {
        due.answer(&mut self.bank, line);
    }
}
