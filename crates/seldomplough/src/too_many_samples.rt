//! Why no more samples are taken.

use thiserror::Error;

/// A recording has `MOST_TIME` samples at most, and those that came would be more.
#[derive(Clone, Copy, Debug, PartialEq, Eq, Error)]
#[error("a recording has at most 2^40 samples")]
pub struct TooManySamples;
