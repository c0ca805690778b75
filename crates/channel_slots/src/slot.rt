//! One slot: what it emits with the samples, and what it answers to its client.

ghost use Rattle.std.specs.Prelude.{◌≡◌, ◌≤◌, ◌<◌, ◌+◌, ◌-◌, List, Some, is_none};
ghost use Rattle.definitions.specs.Samples.{Sample};
ghost use Rattle.definitions.specs.Oscillators.{Settings as DefinedSettings};
ghost use Rattle.definitions.specs.Commands.{state};
ghost use Rattle.definitions.specs.Lives.{Life};
ghost use Rattle.definitions.specs.Answers.{shown, answer_with};
ghost use Rattle.slot_protocol.specs.Answers.{view_in};
ghost use Rattle.channel_slots.specs.Stages.{IsFollowed, is_searching};
ghost use Rattle.sample_planes.specs.declared.planes.TheConstants.{MOST_TIME};

use crate::slot_news::SlotNews;
use crate::stage::Stage;
use acquisition::{Cell, Plan, SearchRoom, Signal};
use ca_codes::CodeBook;
use channels::{Followed, Searched, Window};
use oscillators::Settings;
use sample_planes::MOST_TIME;
use slot_protocol::{Answer, Command, Phase, Refusal, SlotState};
use std::mem;
use tracking_loops::News;

/// The most events that a slot emits over a run of samples: the answer of an acquisition, and those
/// of a dump.
pub const SLOT_EVENTS: usize = 7;

/// The number of a sample that doesn't come.
pub const NEVER: u64 = u64::MAX;

/// A slot: how many dumps are still to be printed, which only commands and dumps change, and what
/// it follows. Its room for a search is lent to each of its searches, and comes back where that
/// ends.
#[derive(Debug, Drop)]
pub struct Slot {
    unprinted: u32,
    stage: Stage,
    room: Option<SearchRoom>,
    ghost lent: { is_none room ≡ is_searching stage },
}

impl Slot {
    ghost use Rattle.std.specs.Prelude.{ℕ, [], ◌++◌, length, IfSome, IsNone, nat_lt, true};
    ghost use Rattle.std.specs.Prelude.{unsigned_abs, false};
    ghost use Rattle.definitions.specs.Commands.{TimedRequest, Start, begin, hold, track};
    ghost use Rattle.definitions.specs.Commands.{acquire};
    ghost use Rattle.definitions.specs.Answers.{answer_at_end};
    ghost use Rattle.sample_history.specs.Histories.{first_of};
    ghost use Rattle.channels.specs.Windows.{IsOver, IsSame, end_of, dump_of, history_of};
    ghost use Rattle.channels.specs.Searching.{plan_of};
    ghost use Rattle.slot_protocol.specs.Commands.{request_in};
    ghost use Rattle.channel_slots.specs.NewsEvents.{events_of, events_with, time_of, time_after};
    ghost use Rattle.channel_slots.specs.Stages.{after_dump, IsSettled};
    ghost use Rattle.channel_slots.specs.declared.stage.Stage.TheVariants as variants;
    ghost use Rattle.channel_slots.specs.Slots.{StandsFor, Emits, IsReady, IsReadyIn, chances};
    ghost use Rattle.channel_slots.specs.Slots.{is_idle, next_event, cells_done_of, BeginsAt};
    ghost use Rattle.channel_slots.specs.Slots.{Obeys};

    /// A slot that was never asked for anything, with the room for its searches.
    pub fn new(room: SearchRoom) -> Slot
        ensures stands { (settings : DefinedSettings) → StandsFor settings [] [] result }
        ensures idle { is_idle result ≡ true }
    {
        Slot {
            unprinted: 0,
            stage: Stage::Idle,
            room: Some(room),
        }
    }

    /// With how many samples of the recording the slot has something to do next: those before may
    /// wait, since nothing is emitted with them.
    pub fn next_event(&self) -> u64
        ensures value { result ≡ next_event self.now }
        ensures quiet { (settings : DefinedSettings) (xs ys : List Sample)
            (commands : List TimedRequest) → StandsFor settings xs commands self.now
            → 0 < length ys → length (xs ++ ys) < result
            → Emits settings xs ys commands self.now [] }
    {
        match &self.stage {
            Stage::Idle => NEVER,
            Stage::Searching(searched) => searched.next_cell(),
            Stage::Following(followed) => followed.next_dump(),
        }
    }

    /// Goes to sample number `to` of a window, or to the slot's next event if that comes before. It
    /// answers what came: where that is a dump it is the window's. The book is any book of codes.
    pub fn take(&mut self, to: u64, window: &mut Window, book: &mut CodeBook) -> Option<SlotNews>
        requires early { to ≤ MOST_TIME }
        requires taken { to ≤ end_of window.old }
        requires ready { IsReadyIn window.old to self.old }
        ensures emits { (settings : DefinedSettings) (xs ys : List Sample)
            (commands : List TimedRequest) → 0 < length ys
            → length (xs ++ ys) ≡ time_after to result → IsOver (xs ++ ys) window.old
            → StandsFor settings xs commands self.old
            → Emits settings xs ys commands self.new (events_of result (dump_of window.new)) }
        ensures passes { (settings : DefinedSettings) (xs : List Sample)
            (commands : List TimedRequest) → length xs ≡ to → IsOver xs window.old
            → StandsFor settings xs commands self.old → StandsFor settings xs commands self.new }
        ensures chances { IfSome result (λ news. chances self.new
            + length (events_with news (dump_of window.new)) ≤ chances self.old) }
        ensures ready { IsReadyIn window.old to self.new }
        ensures all_taken { IsNone result
            → IsReady (first_of (history_of window.old)) to to self.new }
        ensures later { IfSome result (λ news. next_event self.old ≤ time_of news) }
        ensures goes_on { time_after to result < next_event self.new }
        ensures waits { to < next_event self.old → next_event self.new ≡ next_event self.old }
        ensures within { time_after to result ≤ to }
        ensures same { IsSame window.old window.new }
    {
        match &mut self.stage {
            Stage::Idle => None,
            Stage::Searching(searched) => {
                let cell = searched.take(to, window.history(), book)?;
                let (time, prn) = (searched.due(), searched.prn());
                self.settle(&cell);
                Some(SlotNews::Acquired { time, prn, cell })
            }
            Stage::Following(followed) => {
                let time = followed.next_dump();
                if !followed.take(to, window, book) {
                    return None;
                }
                let is_shown = self.note_dump(window.dump().lock);
                Some(SlotNews::Dump { time, is_shown })
            }
        }
    }

    /// Where the slot's search has named a cell, the slot follows the signal from here on that was
    /// found, and nothing where none was. It comes rarely. It isn't inlined, so that `take` has
    /// fewer instructions where a slot holds.
    #[cold]
    #[inline(never)]
    fn settle(&mut self, cell: &Cell)
        requires bin { (searched : Searched) → self.old.stage ≡ variants.Searching searched
            → unsigned_abs cell.now.bin ≤ (plan_of searched).bins }
        ensures stage { (searched : Searched) → self.old.stage ≡ variants.Searching searched
            → IsSettled cell.now searched self.new.stage }
        ensures left { self.new.unprinted ≡ self.old.unprinted }
    {
        let Stage::Searching(searched) = &self.stage else {
            return;
        };
        let found = searched.follow(cell);
        self.rest();
        if let Some(followed) = found {
            self.stage = Stage::Following(followed);
        }
    }

    /// Follows nothing from here on. Where the slot searched, it has its room again. It isn't
    /// inlined, for the reason of `settle`.
    #[cold]
    #[inline(never)]
    fn rest(&mut self)
        ensures stage { self.new.stage ≡ variants.Idle }
        ensures left { self.new.unprinted ≡ self.old.unprinted }
    {
        let was = mem::replace(&mut self.stage, Stage::Idle);
        if let Stage::Searching(searched) = was {
            self.room = Some(searched.into_room());
        }
    }

    /// Whether a dump of the slot's satellite is to be printed: while dumps are, it is one of them.
    /// Where the signal is lost with it the slot is idle from here on.
    fn note_dump(&mut self, lock: News) -> bool
        ensures shown { result ≡ nat_lt 0 self.old.unprinted }
        ensures left { self.new.unprinted ≡ self.old.unprinted - 1 }
        ensures stage { self.new.stage ≡ after_dump lock self.old.stage }
    {
        let is_shown = self.unprinted > 0;
        self.unprinted = self.unprinted.saturating_sub(1);
        if matches!(lock, News::Lost) {
            self.rest();
        }
        is_shown
    }

    /// The number of cells that the search has done, if the slot searches.
    pub fn cells_done(&self) -> Option<u64>
        ensures { result ≡ cells_done_of self.now }
    {
        match &self.stage {
            Stage::Searching(searched) => Some(searched.done()),
            Stage::Idle | Stage::Following(_) => None,
        }
    }

    /// Whether the slot follows nothing.
    fn is_idle(&self) -> bool
        ensures { result ≡ is_idle self.now }
    {
        matches!(self.stage, Stage::Idle)
    }

    /// What the slot shows.
    fn state(&self) -> SlotState
        ensures { (settings : DefinedSettings) (xs : List Sample) (commands : List TimedRequest)
            → StandsFor settings xs commands self.now
            → shown (view_in result) ≡ answer_at_end settings xs commands state }
    {
        match &self.stage {
            Stage::Idle => SlotState::Idle,
            Stage::Searching(searched) => SlotState::Acquire {
                prn: searched.prn(),
                done: searched.done(),
                cells: searched.cells(),
            },
            Stage::Following(followed) => state_of(followed),
        }
    }

    /// Makes the slot follow a stage that is no search, and print no dump, if it is idle.
    #[inline(always)]
    fn start(&mut self, stage: Stage) -> Answer
        requires { is_searching stage ≡ false }
        ensures { (settings : DefinedSettings) (time : ℕ) (start : Start)
            → BeginsAt settings time start stage
            → Obeys settings time (begin start) self.old self.new result }
    {
        if !self.is_idle() {
            return Answer::Refused(Refusal::Busy);
        }
        self.unprinted = 0;
        self.stage = stage;
        Answer::Accepted
    }

    /// Makes the slot hold a satellite from sample `time` on, if it is idle. A start isn't inlined,
    /// here and below: what is followed is large, and other commands need no room for it.
    #[inline(never)]
    fn hold(&mut self, settings: &Settings, time: u64, signal: Signal) -> Answer
        requires { time ≤ MOST_TIME }
        ensures { Obeys settings.now time (begin (hold signal.prn signal.doppler signal.half))
            self.old self.new result }
    {
        self.start(Stage::Following(Followed::hold(settings, signal, time)))
    }

    /// Makes the slot track a satellite from sample `time` on, if it is idle.
    #[inline(never)]
    fn track(&mut self, settings: &Settings, time: u64, signal: Signal) -> Answer
        requires { time ≤ MOST_TIME }
        ensures { Obeys settings.now time (begin (track signal.prn signal.doppler signal.half))
            self.old self.new result }
    {
        self.start(Stage::Following(Followed::track(settings, signal, time)))
    }

    /// Makes the slot search for a satellite from sample `time` on, and print no dump, if it is
    /// idle. Its room goes to the search.
    #[inline(never)]
    fn acquire(&mut self, settings: &Settings, plan: Plan, time: u64) -> Answer
        requires { time ≤ MOST_TIME }
        ensures { Obeys settings.now time (begin (acquire plan)) self.old self.new result }
    {
        if self.is_idle() {
            let room = self.room.take().unwrap();
            self.unprinted = 0;
            self.stage = Stage::Searching(Searched::start(settings, plan, time, room));
            Answer::Accepted
        } else {
            Answer::Refused(Refusal::Busy)
        }
    }

    /// Does what a client asks of this slot, and answers it: a refused command changes nothing.
    /// The next sample is number `time`, at most `MOST_TIME`.
    pub fn command(&mut self, settings: &Settings, time: u64, command: Command) -> Answer
        requires { time ≤ MOST_TIME }
        ensures { Obeys settings.now time (request_in command) self.old self.new result }
    {
        prove!(
            time <= MOST_TIME,
            "Slot::command requires time <= MOST_TIME"
        );
        match command {
            Command::Acquire { slot: _, plan } => self.acquire(settings, plan, time),
            Command::Hold { slot: _, signal } => self.hold(settings, time, signal),
            Command::Track { slot: _, signal } => self.track(settings, time, signal),
            Command::State { .. } => Answer::State(self.state()),
            Command::Counts { slot: _, n } => {
                if self.is_idle() {
                    return Answer::Refused(Refusal::Idle);
                }
                self.unprinted = n;
                Answer::Accepted
            }
            Command::Stop { .. } => {
                if self.is_idle() {
                    return Answer::Refused(Refusal::Idle);
                }
                self.unprinted = 0;
                self.rest();
                Answer::Accepted
            }
        }
    }
}

/// What a slot shows of a satellite that it follows.
fn state_of(followed: &Followed) -> SlotState
    ensures { (settings : DefinedSettings) (xs : List Sample) (life : Life)
        → IsFollowed settings xs life followed.now
        → shown (view_in result) ≡ answer_with settings xs (Some life) state }
{
    let (prn, dumps) = (followed.prn(), followed.dumps());
    match followed.tracking() {
        None => SlotState::Hold { prn, dumps },
        Some(tracking) => SlotState::Track {
            prn,
            dumps,
            v: tracking.v(),
            w: tracking.w(),
            phase: Phase::of(tracking.is_locked(), tracking.has_edge()),
        },
    }
}
