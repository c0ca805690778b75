//! How one part of a sample is made of a recording's values.

ghost use Rattle.std.specs.Prelude.{◌≡◌, ◌<◌, ◌≤◌, ◌^◌, unsigned_abs};
ghost use Rattle.recordings.specs.declared.numbers.TheConstants.{READING_LIMIT};

use crate::numbers::READING_LIMIT;

/// How a part of a sample is made: of which value, and about which centre.
#[derive(Clone, Copy, Debug, PartialEq, Eq)]
pub struct PartRecipe {
    /// Which value of the recording's sample: 0 is the first.
    pub place: usize,
    /// The centre, twice its value: a value below it has the sign -1.
    pub centre: i64,
    /// Whether the sign is turned, as that of the part in quadrature of a conjugate.
    pub is_turned: bool,
    ghost near: { unsigned_abs centre ≤ 2 ^ 32 },
}

impl PartRecipe {
    ghost use Rattle.recordings.specs.Recordings.{sign_bit, size_bit};

    /// The bit of the sign.
    pub(crate) fn sign(&self, value: i64) -> u8
        ensures value { result ≡ sign_bit self.now value }
        ensures bit { result < 2 }
    {
        if self.is_turned {
            if value < self.centre { 0 } else { 1 }
        } else {
            if value < self.centre { 1 } else { 0 }
        }
    }

    /// The bit of the size.
    pub(crate) fn size(&self, threshold: u64, value: i64) -> u8
        requires { unsigned_abs value < READING_LIMIT }
        ensures value { result ≡ size_bit self.now threshold value }
        ensures bit { result < 2 }
    {
        if threshold < (value - self.centre).unsigned_abs() {
            1
        } else {
            0
        }
    }
}
