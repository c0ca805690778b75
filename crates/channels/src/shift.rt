//! Doppler shifts by the unit of loops and steps.

ghost use Rattle.std.specs.Prelude.{◌≡◌, ◌≤◌, unsigned_abs};
ghost use Rattle.definitions.specs.Lives.{doppler_shift};
ghost use Rattle.oscillators.specs.declared.settings.TheConstants.{MOST_SHIFT};

use oscillators::Doppler;

/// A Doppler shift in 1/65536 Hz.
pub(crate) fn shift_of(doppler: Doppler) -> i64
    ensures value { result ≡ doppler_shift doppler }
    ensures small { unsigned_abs result ≤ MOST_SHIFT }
{
    i64::from(doppler.get()) * 65_536
}
