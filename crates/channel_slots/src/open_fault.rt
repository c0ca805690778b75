//! Why a bank may not open.

ghost use Rattle.std.specs.Prelude.{◌≡◌};
ghost use Rattle.channel_slots.specs.declared.open_fault.OpenFault.TheVariants.{NoMemory};

use std::alloc::AllocError;
use thiserror::Error;

/// Why no bank was opened. The number of clients is checked first, then their shares.
#[derive(Clone, Copy, Debug, PartialEq, Eq, Error)]
pub enum OpenFault {
    /// There was no memory for the slots.
    #[error("no memory")]
    NoMemory,
    /// The number of clients is outside 1 to 8.
    #[error("there are from 1 to 8 clients")]
    Clients,
    /// A client's share of the slots is outside 1 to 8.
    #[error("a client's share is from 1 to 8 slots")]
    Share,
}

impl From<AllocError> for OpenFault {
    ghost from_gives = { λ _ fault. fault ≡ NoMemory };

    fn from(_: AllocError) -> OpenFault {
        OpenFault::NoMemory
    }
}
