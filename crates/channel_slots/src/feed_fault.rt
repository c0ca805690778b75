//! Why a bank may not take a run of samples.

use thiserror::Error;

/// Why a run of samples isn't taken. The packing is checked first, then the run's length, then that
/// of the recording.
#[derive(Clone, Copy, Debug, PartialEq, Eq, Error)]
pub enum FeedFault {
    /// The run isn't packed as the recording is.
    #[error("the samples aren't packed as those of the bank's recording")]
    Packing,
    /// The run has more than `MAX_SAMPLES` samples.
    #[error("a run has at most 1024 samples")]
    TooLong,
    /// With the run the recording would have more than `MOST_TIME` samples.
    #[error("a recording has at most 2^40 samples")]
    TooMany,
}
