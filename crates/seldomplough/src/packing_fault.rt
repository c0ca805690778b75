//! Why values aren't packed.

ghost use Rattle.std.specs.Prelude.{◌≡◌};
ghost use Rattle.seldomplough.specs.declared.packing_fault.PackingFault.TheVariants.{NoMemory};
ghost use Rattle.seldomplough.specs.Packings.{fault_of};

use recordings::PackFault;
use std::alloc::{AllocError, AllocFailed};
use thiserror::Error;

/// Values aren't packed.
#[derive(Clone, Copy, Debug, PartialEq, Eq, Error)]
pub enum PackingFault {
    /// There was no memory for what is packed.
    #[error("no memory")]
    NoMemory,
    /// A float is no number.
    #[error("a float is no number")]
    NotANumber,
    /// The recording has values of another kind.
    #[error("the recording has values of another kind")]
    OtherKind,
}

impl From<PackFault> for PackingFault {
    ghost from_gives = { λ fault packing_fault. packing_fault ≡ fault_of fault };

    fn from(fault: PackFault) -> PackingFault {
        match fault {
            PackFault::NoMemory => PackingFault::NoMemory,
            PackFault::NotANumber => PackingFault::NotANumber,
        }
    }
}

impl From<AllocError> for PackingFault {
    ghost from_gives = { λ _ fault. fault ≡ NoMemory };

    fn from(_: AllocError) -> PackingFault {
        PackingFault::NoMemory
    }
}

impl<T: Drop> From<AllocFailed<T>> for PackingFault {
    ghost from_gives = { λ _ fault. fault ≡ NoMemory };

    fn from(_: AllocFailed<T>) -> PackingFault {
        PackingFault::NoMemory
    }
}
