//! Laws of the loops that steer a tracking channel.

ghost use Rattle.definitions.specs.LoopLaws.{LoopsStayWithin, FirstDumpsPull, LaterDumpsHold};
ghost use Rattle.definitions.specs.LoopLaws.{PromptSumsSteerTheCarrier, LastDumpSteersTheCode};
ghost use Rattle.definitions.specs.LoopLaws.{SignalInPhaseStays, CommonPhaseIsNoTurn};
ghost use Rattle.definitions.specs.LoopLaws.{DataBitsAreNoError};

/// After each dump the shift is within its limits, and so is the correction of the code's rate.
pub fn loops_stay_within()
    ensures { LoopsStayWithin }
{}

/// Each of the first 199 dumps moves the shift by its frequency error alone.
pub fn first_dumps_pull()
    ensures { FirstDumpsPull }
{}

/// Each later dump moves the shift by its phase error alone.
pub fn later_dumps_hold()
    ensures { LaterDumpsHold }
{}

/// Dumps with the same prompt sums give the same shift.
pub fn prompt_sums_steer_the_carrier()
    ensures { PromptSumsSteerTheCarrier }
{}

/// The correction of the code's rate comes from the last dump's early and late sums alone.
pub fn last_dump_steers_the_code()
    ensures { LastDumpSteersTheCode }
{}

/// A signal whose prompt sums have no part in quadrature leaves the shift as it was at first.
pub fn signal_in_phase_stays()
    ensures { SignalInPhaseStays }
{}

/// The frequency error is that of the turn alone: a quarter turn of both dumps doesn't change it.
pub fn common_phase_is_no_turn()
    ensures { CommonPhaseIsNoTurn }
{}

/// A data bit changes no error, but where the turn or the phase is just a quarter.
pub fn data_bits_are_no_error()
    ensures { DataBitsAreNoError }
{}
