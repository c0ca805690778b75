//! Why shares or scripts can't be had.

ghost use Rattle.std.specs.Prelude.{◌≡◌};
ghost use Rattle.receiver_options.specs.declared.fault.OptionFault.TheVariants.{NoMemory};

use std::alloc::{AllocError, AllocFailed};
use thiserror::Error;

/// Why the shares of the slots or the scripts that a command line asks for can't be had.
#[derive(Clone, Copy, Debug, PartialEq, Eq, Error)]
pub enum OptionFault {
    /// There was no memory for the shares or a script.
    #[error("no memory")]
    NoMemory,
    /// The shares of the slots aren't a digit from 1 to 8 for each script.
    #[error("shares")]
    Shares,
    /// A script couldn't be read, or is longer than 16 MiB.
    #[error("script")]
    Script,
}

impl From<AllocError> for OptionFault {
    ghost from_gives = { λ _ fault. fault ≡ NoMemory };

    fn from(_: AllocError) -> OptionFault {
        OptionFault::NoMemory
    }
}

impl<T: Drop> From<AllocFailed<T>> for OptionFault {
    ghost from_gives = { λ _ fault. fault ≡ NoMemory };

    fn from(_: AllocFailed<T>) -> OptionFault {
        OptionFault::NoMemory
    }
}
