//! Why the program ends early, and with which status.

ghost use Rattle.std.specs.Prelude.{◌≡◌};
ghost use Rattle.packer.specs.Statuses.{status_of, failure_of};
ghost use Rattle.packer.specs.declared.failure.Failure.TheVariants.{NoMemory};

use recordings::{ChoiceFault, PackFault};
use std::alloc::{AllocError, AllocFailed};
use thiserror::Error;

/// Why the program ends early, but for a command line that the option parser refuses.
#[derive(Clone, Copy, Debug, PartialEq, Eq, Error)]
pub enum Failure {
    /// There was no memory.
    #[error("no memory")]
    NoMemory,
    /// Standard input couldn't be read.
    #[error("standard input couldn't be read")]
    Input,
    /// Standard input has a float that is no number.
    #[error("standard input has a float that is no number")]
    NotANumber,
    /// Standard output couldn't be written.
    #[error("standard output couldn't be written")]
    Output,
    /// A word of the command line isn't text.
    #[error("a word of the command line isn't UTF-8")]
    Words,
    /// No packing was given.
    #[error("--to: it is missing, and so is --measure")]
    NoFormat,
    /// An option says how to pack, and measuring packs nothing.
    #[error("--{0}: --measure packs nothing")]
    NotPacked(&'static str),
    /// The packing has sizes, and no threshold was given.
    #[error("--to: two bits a part need --threshold; --measure suggests one")]
    NoThreshold,
    /// Standard input has a float that is infinite, so that it has no mean.
    #[error("standard input has a float that is infinite")]
    Infinite,
    /// There is no sample to measure.
    #[error("standard input has no whole sample")]
    Nothing,
    /// A centre or a threshold isn't a number of halves, or is out of range.
    #[error("--{0}: it takes N or N.5, at most 1000000.5")]
    Number(&'static str),
    /// A threshold of floats isn't a float of at least 0, or is infinite.
    #[error("--threshold: of floats it takes a number from 0 to 3.4e38")]
    Float,
    /// Floats have the centre 0.
    #[error("--centre: floats have the centre 0")]
    Centre,
    /// A number of samples is too great, or isn't one of whole bytes.
    #[error("--{0}: it takes whole bytes of samples, at most 2^40 samples")]
    Samples(&'static str),
    /// What is asked for can't be had of the recording.
    #[error("--from: {0}")]
    Choice(ChoiceFault),
}

/// The status of the program: 0, or 1 where a device, its bytes or memory are at fault, or 2 where
/// the options are.
pub fn status(ended: Result<(), Failure>) -> u8
    ensures { result ≡ status_of ended }
{
    match ended {
        Ok(()) => 0,
        Err(Failure::NoMemory | Failure::Input | Failure::Output) => 1,
        Err(Failure::NotANumber | Failure::Infinite | Failure::Nothing) => 1,
        Err(_) => 2,
    }
}

impl From<AllocError> for Failure {
    ghost from_gives = { λ _ failure. failure ≡ NoMemory };

    fn from(_: AllocError) -> Failure {
        Failure::NoMemory
    }
}

impl<T: Drop> From<AllocFailed<T>> for Failure {
    ghost from_gives = { λ _ failure. failure ≡ NoMemory };

    fn from(_: AllocFailed<T>) -> Failure {
        Failure::NoMemory
    }
}

impl From<PackFault> for Failure {
    ghost from_gives = { λ fault failure. failure ≡ failure_of fault };

    fn from(fault: PackFault) -> Failure {
        match fault {
            PackFault::NoMemory => Failure::NoMemory,
            PackFault::NotANumber => Failure::NotANumber,
        }
    }
}
