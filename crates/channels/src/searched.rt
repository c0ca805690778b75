//! A satellite that is searched for.

ghost use Rattle.std.specs.Prelude.{◌≡◌, ◌≤◌, ◌<◌, ◌+◌, ◌*◌, ℕ};
ghost use Rattle.acquisition.specs.Searches.{start_of, end_of};
ghost use Rattle.sample_planes.specs.declared.planes.TheConstants.{MOST_TIME};
ghost use Rattle.channels.specs.declared.searched.TheConstants.{MOST_WAIT};
ghost use Rattle.definitions.specs.Acquisition.{cell_count};

use crate::followed::Followed;
use acquisition::{Cell, MOST_CELLS, MOST_DWELL, Plan, Search, SearchRoom};
use ca_codes::{CodeBook, Prn};
use oscillators::{MOST_PER_MS, Settings};
use sample_planes::{MOST_TIME, SampleSource};

/// The most samples from the first of a search to the time of its answer, whatever the settings.
pub const MOST_WAIT: u64 = MOST_DWELL as u64 * MOST_PER_MS as u64 + 4 * MOST_CELLS;

/// A satellite that is searched for from a sample on. One more cell of its plan is done with every
/// four samples after the dwell, so that its answer is due at a sample that depends on the plan
/// alone. It stands for its acquisition and the samples so far.
#[derive(Debug, Drop)]
pub struct Searched {
    settings: Settings,
    search: Search,
    ghost near: { end_of search + 4 * cell_count search.plan ≤ start_of search + MOST_WAIT },
}

impl Searched {
    ghost use Rattle.std.specs.Prelude.{List, ◌++◌, length, min, IfSome, IsSome, ◌↔◌, true};
    ghost use Rattle.std.specs.Prelude.{unsigned_abs};
    ghost use Rattle.definitions.specs.Samples.{Sample};
    ghost use Rattle.definitions.specs.Oscillators.{Settings as DefinedSettings};
    ghost use Rattle.definitions.specs.Acquisition.{Plan as DefinedPlan, due_time};
    ghost use Rattle.definitions.specs.Lives.{found_channel};
    ghost use Rattle.acquisition.specs.Cells.{cell_in};
    ghost use Rattle.sample_planes.specs.Sources.{AreSamplesOf};
    ghost use Rattle.channels.specs.Searching.{Searches, Takes, Begins, IsReady, IsLater};
    ghost use Rattle.channels.specs.Searching.{plan_of, due_of, done_of, next_cell};
    ghost use Rattle.channels.specs.FollowedChannels.{Follows, HasBegun};

    /// A search that begins with sample `start`, the next one; `start` is at most `MOST_TIME`. It
    /// works in a room until `into_room` gives that back.
    pub fn start(settings: &Settings, plan: Plan, start: u64, room: SearchRoom) -> Searched
        requires { start ≤ MOST_TIME }
        ensures stands { (xs : List Sample) → length xs ≡ start
            → Searches settings.now plan start xs result }
        ensures begins { Begins settings.now plan start result }
    {
        prove!(
            start <= MOST_TIME,
            "Searched::start requires start <= MOST_TIME"
        );
        Searched {
            settings: *settings,
            search: Search::new(plan, settings, start, room),
        }
    }

    /// Ends the search, and gives back the room that it worked in.
    pub fn into_room(self) -> SearchRoom {
        self.search.into_room()
    }

    /// The satellite that is searched for.
    pub fn prn(&self) -> Prn
        ensures { result ≡ (plan_of self.now).prn }
    {
        self.search.plan().prn()
    }

    /// The number of cells that the search has done.
    pub fn done(&self) -> u64
        ensures { result ≡ done_of self.now }
    {
        self.search.done()
    }

    /// The number of cells of the search's plan.
    pub fn cells(&self) -> u64
        ensures { result ≡ cell_count (plan_of self.now) }
    {
        self.search.plan().cells()
    }

    /// The time at which the answer is due.
    pub fn due(&self) -> u64
        ensures value { result ≡ due_of self.now }
        ensures is { (settings : DefinedSettings) (plan : DefinedPlan) (begun : ℕ)
            (xs : List Sample) → Searches settings plan begun xs self.now
            → result ≡ due_time settings plan begun }
    {
        self.search.due()
    }

    /// With how many samples of the recording the next cell is to be done: it needs none before.
    /// Where all are done it is the time of the answer.
    pub fn next_cell(&self) -> u64
        ensures value { result ≡ next_cell self.now }
        ensures waits { (settings : DefinedSettings) (plan : DefinedPlan) (begun : ℕ)
            (xs ys : List Sample) → length (xs ++ ys) < result
            → Searches settings plan begun xs self.now
            → Takes settings plan begun (xs ++ ys) None self.now }
    {
        self.due() - 4 * self.cells().saturating_sub(self.search.done() + 1)
    }

    /// Does the cells of the samples up to number `to`, over a source that holds them from the
    /// search's first on. It answers the cell that the acquisition names if that is due by then.
    /// The book is any book of codes. It stays a call, since it has rooms for many samples.
    #[inline(never)]
    pub fn take<S: SampleSource>(
        &mut self,
        to: u64,
        source: &S,
        book: &mut CodeBook,
    ) -> Option<Cell>
        requires ready { IsReady (S.from source.now) (S.to source.now) to self.old }
        ensures takes { (settings : DefinedSettings) (plan : DefinedPlan) (begun : ℕ)
            (xs ys : List Sample) → length (xs ++ ys) ≡ min to (due_of self.old)
            → AreSamplesOf (xs ++ ys) begun (length (xs ++ ys)) (S.held source.now)
            → Searches settings plan begun xs self.old
            → Takes settings plan begun (xs ++ ys) result self.new }
        ensures later { IsLater to self.old self.new }
        ensures waits { to < next_cell self.old → self.new ≡ self.old }
        ensures due { IsSome result ↔ (due_of self.old ≤ to) }
        ensures of_plan { IfSome result (λ cell.
            unsigned_abs cell.bin ≤ (plan_of self.new).bins) }
    {
        if to < self.next_cell() {
            return None;
        }
        let left = self.due().saturating_sub(to);
        let more = self.cells() - left.div_ceil(4) - self.search.done();
        self.search.advance(more, source, book);
        self.search.result()
    }

    /// The signal of a cell that was found, tracked from the time on at which the answer was due.
    /// `None` where the cell isn't one that was found.
    pub fn follow(&self, cell: &Cell) -> Option<Followed>
        requires bin { unsigned_abs cell.now.bin ≤ (plan_of self.now).bins }
        ensures found { IsSome result ↔ (cell.now.found ≡ true) }
        ensures follows { IfSome result (λ f. (settings : DefinedSettings) (plan : DefinedPlan)
            (begun : ℕ) (xs : List Sample) → length xs ≡ due_of self.now
            → Searches settings plan begun xs self.now
            → Follows settings (found_channel settings plan begun (cell_in cell.now)) xs f) }
        ensures begins { IfSome result (λ f. HasBegun (due_of self.now) true f) }
    {
        if !cell.found {
            return None;
        }
        let signal = self.search.plan().signal(cell)?;
        let due = self.search.due();
        let ago = due - self.search.start();
        Some(Followed::track_after(&self.settings, signal, due, ago))
    }
}
