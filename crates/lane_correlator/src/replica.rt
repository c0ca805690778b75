//! A satellite's replica in words of 64 samples, and the sums over words of a run with it.

ghost use Rattle.std.specs.Prelude.{◌≡◌, ◌⊎◌, ◌+◌, ◌-◌, ◌*◌, ◌/◌, ◌<◌, ◌≤◌, ℕ};
ghost use Rattle.std.specs.Prelude.{min, max, IfSome, IfNone};
ghost use Rattle.definitions.specs.Oscillators.{code_phase_after};
ghost use Rattle.ca_codes.specs.Filled.{IsTable};
ghost use Rattle.bit_planes.specs.declared.plane.TheConstants.{WORD_PLACES, WORDS};
ghost use Rattle.sample_planes.specs.Signs.{AreReal};
ghost use Rattle.sample_planes.specs.Codes.{AreQuadratureCodes};
ghost use Rattle.sample_planes.specs.declared.planes.TheConstants.{MAX_SAMPLES};
ghost use Rattle.oscillators.specs.Lanes.{AreChipLanes, HasAllLanes};
ghost use Rattle.oscillators.specs.declared.code_words.TheConstants.{MOST_WINDOW_STEP};
ghost use Rattle.lane_correlator.specs.ByteSums.{HasLanes};
ghost use Rattle.lane_correlator.specs.Bytes.{IsWithin};

use crate::counts::Counts;
use crate::tally::Tally;
use crate::wiped::Wiped;
use bit_planes::WORD_PLACES;
use ca_codes::{CodeBook, Prn, TABLE};
use oscillators::{CarrierWords, ChipLanes, CodeWords};
use sample_planes::Planes;

/// The samples `from` to `to` - 1 of a run.
#[derive(Clone, Copy)]
pub(crate) struct RunPart<'a> {
    pub(crate) samples: &'a Planes,
    pub(crate) from: usize,
    pub(crate) to: usize,
}

/// A satellite's replica in words of 64 samples, the next one first.
#[derive(Drop)]
pub(crate) struct WordReplica<'a> {
    pub(crate) prn: Prn,
    pub(crate) carrier: CarrierWords<'a>,
    pub(crate) code: CodeWords<'a>,
}

/// What is known of the words of a part.
#[derive(Clone, Copy, Debug, PartialEq, Eq)]
enum WordKind {
    /// The code has windows, and the samples are real.
    Real,
    /// The code has windows, and the samples may be complex.
    Complex,
    /// Nothing is known of the code or of the samples.
    Any,
}

impl RunPart<'_> {
    /// The codes in quadrature of word `w`.
    #[inline(always)]
    fn codes_q(&self, w: usize, words: WordKind) -> Option<[u8; WORD_PLACES]>
        requires word { w < WORDS }
        requires real { words ≡ WordKind.Real → AreReal self.now.samples.now }
        ensures codes { IfSome result (λ lanes. AreQuadratureCodes self.now.samples.now w lanes) }
        ensures real { IfNone result (AreReal self.now.samples.now) }
    {
        match words {
            WordKind::Real => None,
            WordKind::Complex | WordKind::Any => self.samples.codes_q(w),
        }
    }

    /// The products of word `w` at the samples of the part, and 0 at the others.
    #[inline(always)]
    fn within(&self, wiped: Wiped, w: usize) -> Wiped
        requires long { HasLanes wiped }
        requires begun { self.now.from / WORD_PLACES ≤ w }
        requires inside { WORD_PLACES * w < self.now.to }
        requires ordered { self.now.from ≤ self.now.to }
        requires short { self.now.to ≤ MAX_SAMPLES }
        ensures long { HasLanes result }
        ensures in_phase { IsWithin (max self.now.from (WORD_PLACES * w) - WORD_PLACES * w)
            (min self.now.to (WORD_PLACES * w + WORD_PLACES) - WORD_PLACES * w) wiped.i result.i }
        ensures quadrature { IsWithin (max self.now.from (WORD_PLACES * w) - WORD_PLACES * w)
            (min self.now.to (WORD_PLACES * w + WORD_PLACES) - WORD_PLACES * w) wiped.q result.q }
    {
        // One comparison finds the words that lie in the part whole. They are most.
        let whole = (self.from + 63) / 64;
        let many = (self.to / 64).saturating_sub(whole);
        if w.wrapping_sub(whole) < many {
            return wiped;
        }
        wiped.within(
            self.from.max(64 * w) - 64 * w,
            self.to.min(64 * w + 64) - 64 * w,
        )
    }
}

impl<'a> WordReplica<'a> {
    ghost use Rattle.lane_correlator.specs.Adding.{IsPart, HasSums, GoesOn};
    ghost use Rattle.lane_correlator.specs.Adding.{first_word, word_end};

    /// The sums over a part of a run, of so few words that lanes have room for them. The replica
    /// stands at the first of them, and goes on by all.
    #[inline(always)]
    pub(crate) fn sums(&mut self, part: &RunPart<'_>, book: &mut CodeBook) -> Counts
        requires { IsPart part.now }
        ensures sums { HasSums part.now self.old result }
        ensures moved { GoesOn (first_word part.now) (word_end part.now) self.old self.new }
    {
        // Each kind of words has a loop of its own, so that this has few branches.
        match (self.code.has_windows(), part.samples.is_complex()) {
            (true, false) => self.sums_of_words(part, book, WordKind::Real),
            (true, true) => self.sums_of_words(part, book, WordKind::Complex),
            (false, _) => self.sums_of_long_steps(part, book),
        }
    }

    /// The sums where sixteen samples may take more chips than a window has. No rate of a recording
    /// has such a step, so this isn't inlined.
    #[cold]
    #[inline(never)]
    fn sums_of_long_steps(&mut self, part: &RunPart<'_>, book: &mut CodeBook) -> Counts
        requires { IsPart part.now }
        ensures sums { HasSums part.now self.old result }
        ensures moved { GoesOn (first_word part.now) (word_end part.now) self.old self.new }
    {
        self.sums_of_words(part, book, WordKind::Any)
    }

    /// The sums over words of which this much is known.
    #[inline(always)]
    fn sums_of_words(&mut self, part: &RunPart<'_>, book: &mut CodeBook, words: WordKind) -> Counts
        requires part { IsPart part.now }
        requires windows { (words ≡ WordKind.Any) ⊎ (self.old.code.step ≤ MOST_WINDOW_STEP) }
        requires real { words ≡ WordKind.Real → AreReal part.now.samples.now }
        ensures sums { HasSums part.now self.old result }
        ensures moved { GoesOn (first_word part.now) (word_end part.now) self.old self.new }
    {
        let table = book.table(self.prn);
        let mut tally = Tally::none();
        for w in part.from / 64..(part.to + 63) / 64 {
            let eighths = self.carrier.next_eighths();
            let wiped = Wiped::new(eighths, part.samples.codes(w), part.codes_q(w, words));
            let within = part.within(wiped, w);
            let chips = next_chips(&mut self.code, table, words);
            tally = tally.add(within, chips);
        }
        tally.counts()
    }
}

/// The chips of a code at the samples of the next word.
#[inline(always)]
fn next_chips(code: &mut CodeWords<'_>, table: &[u8; TABLE], words: WordKind) -> ChipLanes
    requires { (words ≡ WordKind.Any) ⊎ (code.old.step ≤ MOST_WINDOW_STEP) }
    ensures chips { (prn : ℕ) → IsTable prn table.now
        → AreChipLanes prn code.old.phase code.old.step result }
    ensures long { HasAllLanes result }
    ensures moved { code.new ≡ record code.old {
      phase = code_phase_after code.old.phase code.old.step WORD_PLACES;
    } }
{
    match words {
        WordKind::Real | WordKind::Complex => code.next_lanes_by_windows(table),
        WordKind::Any => code.next_lanes(table),
    }
}
