//! Laws of what one slot emits.

ghost use Rattle.definitions.specs.SlotLaws.{PushesAreAfterLock};
ghost use Rattle.definitions.specs.SlotLaws.{DumpsArePlainSums, NoOtherDumps, CellsComeWithSamples};
ghost use Rattle.definitions.specs.SlotLaws.{PagesPass, SegmentsGoOn};
ghost use Rattle.definitions.specs.SlotLaws.{EdgeIsSixteenthChange, LifeIsOn, SlotEmitsFew};
ghost use Rattle.definitions.specs.EventLaws.{EventsAreRight, CountsAreDumps};
ghost use Rattle.definitions.specs.EventLaws.{AcquisitionsNameTheGreatest, EmittedWordsPass};
ghost use Rattle.definitions.specs.EventLaws.{AlmanacSetsAgree, FoundCodeGoesOn};

/// The dumps of a channel are the six plain sums over one run of the code after another.
pub fn dumps_are_plain_sums()
    ensures { DumpsArePlainSums }
{}

/// Where a segment ends the next one begins, and the phases of code and carrier go on.
pub fn segments_go_on()
    ensures { SegmentsGoOn }
{}

/// No other list has dumps like those of a channel.
pub fn no_other_dumps()
    ensures { NoOtherDumps }
{}

/// With m more samples at most m / 4 + 1 more cells of an acquisition are done.
pub fn cells_come_with_samples()
    ensures { CellsComeWithSamples }
{}

/// Each page that is reported comes from ten words that all pass with the two bits before them.
pub fn pages_pass()
    ensures { PagesPass }
{}

/// While the loops are locked, the prompt sums after the last dump that brought a lock are pushed.
pub fn pushes_are_after_lock()
    ensures { PushesAreAfterLock }
{}

/// Where the sign of the pushes changes at one place modulo 20 alone, the edge is at the sixteenth
/// change.
pub fn edge_is_sixteenth_change()
    ensures { EdgeIsSixteenthChange }
{}

/// The life that is on was begun by a command for which the slot was idle, no `stop` came after it,
/// and the samples haven't ended it.
pub fn life_is_on()
    ensures { LifeIsOn }
{}

/// Each event that a slot emits says what holds of the life that is on.
pub fn events_are_right()
    ensures { EventsAreRight }
{}

/// Each emitted count is a dump of the channel that the slot follows, ended by the last sample.
pub fn counts_are_dumps()
    ensures { CountsAreDumps }
{}

/// Each emitted acquisition names the first greatest cell of its plan, and is found exactly at the
/// threshold.
pub fn acquisitions_name_the_greatest()
    ensures { AcquisitionsNameTheGreatest }
{}

/// Each word that is shown of an emitted subframe passes with the two bits before it.
pub fn emitted_words_pass()
    ensures { EmittedWordsPass }
{}

/// A set of almanacs that is reported has the last almanac of each satellite, all of one time of
/// applicability.
pub fn almanac_sets_agree()
    ensures { AlmanacSetsAgree }
{}

/// The code of a found signal is at the due time where the replica of the named cell has come by
/// then, and goes on from there.
pub fn found_code_goes_on()
    ensures { FoundCodeGoesOn }
{}

/// A slot emits at most four events with one sample, and beside them at most one set of almanacs.
pub fn slot_emits_few()
    ensures { SlotEmitsFew }
{}
