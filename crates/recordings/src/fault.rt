//! Why bytes can't be packed.

ghost use Rattle.std.specs.Prelude.{◌≡◌};
ghost use Rattle.recordings.specs.declared.fault.PackFault.TheVariants.{NoMemory};

use std::alloc::{AllocError, AllocFailed};
use thiserror::Error;

/// Bytes can't be packed.
#[derive(Clone, Copy, Debug, PartialEq, Eq, Error)]
pub enum PackFault {
    /// There was no memory for what is written.
    #[error("no memory")]
    NoMemory,
    /// A float is no number.
    #[error("a float is no number")]
    NotANumber,
}

impl From<AllocError> for PackFault {
    ghost from_gives = { λ _ fault. fault ≡ NoMemory };

    fn from(_: AllocError) -> PackFault {
        PackFault::NoMemory
    }
}

impl<T: Drop> From<AllocFailed<T>> for PackFault {
    ghost from_gives = { λ _ fault. fault ≡ NoMemory };

    fn from(_: AllocFailed<T>) -> PackFault {
        PackFault::NoMemory
    }
}
