//! How a run ends.

use channel_slots::OpenFault;

/// Why a run ended early, and what is written then.
#[derive(Clone, Copy, Debug, PartialEq, Eq, thiserror::Error)]
pub enum RunFault {
    /// There was no memory for the slots: nothing was read or written.
    #[error("no memory")]
    NoMemory,
    /// There is no script, or more than eight: nothing was read or written.
    #[error("there are from 1 to 8 scripts")]
    Clients,
    /// There are more or fewer shares than scripts, or a share is outside 1 to 8: nothing was read
    /// or written.
    #[error("each script has a share from 1 to 8 slots")]
    Share,
    /// A read failed: the lines up to there are written, without the ends.
    #[error("the samples couldn't be read")]
    Read,
    /// A write or a flush failed: a front of the lines is written.
    #[error("the lines couldn't be written")]
    Write,
    /// More samples than the limit came: the lines up to the limit are written, without the ends.
    #[error("there are more samples than the limit")]
    TooLong,
}

/// Why reading stopped.
#[derive(Clone, Copy, Debug, PartialEq, Eq)]
pub enum Stop {
    /// A read gave 0 bytes.
    AtEnd,
    /// A read failed.
    ReadFailed,
    /// More samples than the limit came.
    PastLimit,
}

impl From<OpenFault> for RunFault {
    ghost use Rattle.std.specs.Prelude.{◌≡◌};
    ghost use Rattle.receiver.specs.Runs.{fault_of};

    ghost from_gives = { λ fault run_fault. run_fault ≡ fault_of fault };

    fn from(fault: OpenFault) -> RunFault {
        match fault {
            OpenFault::NoMemory => RunFault::NoMemory,
            OpenFault::Clients => RunFault::Clients,
            OpenFault::Share => RunFault::Share,
        }
    }
}
