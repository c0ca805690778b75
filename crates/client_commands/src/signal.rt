//! The words with which a slot begins to follow a satellite.

ghost use Rattle.std.specs.Prelude.{◌≡◌, length};
ghost use Rattle.definitions.specs.Scripts.{start_ranges, values_in};
ghost use Rattle.client_commands.specs.Reading.{values_of_signal};

use crate::refusal::LineRefusal;
use crate::words::Words;
use acquisition::Signal;

/// The signal of three words: satellite, Doppler shift and half chip.
pub(crate) fn read_signal(words: &mut Words<'_>) -> Result<Signal, LineRefusal>
    requires { length words.old ≡ length start_ranges }
    ensures { values_of_signal result ≡ values_in start_ranges words.old }
{
    Ok(Signal {
        prn: words.prn()?,
        doppler: words.doppler()?,
        half: words.half_chip()?,
    })
}
