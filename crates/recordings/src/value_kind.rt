//! The kinds of values that recordings have.

ghost use Rattle.std.specs.Prelude.{true, false, ◌≡◌, ◌+◌, ◌*◌};
ghost use Rattle.std.specs.Prelude.{◌<◌, ◌≤◌, length, unsigned_abs};
ghost use Rattle.recordings.specs.Readings.{bits_of, reading, AreNumbers};
ghost use Rattle.recordings.specs.declared.numbers.TheConstants.{READING_LIMIT};

use crate::numbers::{are_numbers, sign_of, signed, sized};
use crate::values::{Floats, HighFirst, LowFirst, Values};

/// The kind of the values of a recording.
#[derive(Clone, Copy, Debug, PartialEq, Eq)]
pub enum ValueKind {
    /// Bytes without a sign, 0 to 255.
    U8,
    /// Bytes of two's complement.
    I8,
    /// Numbers of 16 bits and two's complement, the low byte first.
    I16,
    /// Numbers of 16 bits and two's complement, the high byte first.
    I16Be,
    /// Floats of 32 bits of IEEE 754, the low byte first.
    F32,
    /// Two bits of two's complement t for the value 2t + 1, the earliest in a byte's low bits.
    Bits2Low,
    /// Two bits, a sign s above a size m, for the value (1 - 2s)(1 + 2m), the earliest in a byte's
    /// low bits.
    SignSizeLow,
    /// One bit, 0 for 1 and 1 for -1, the earliest in a byte's low bit.
    Bits1Low,
    /// One bit, 0 for 1 and 1 for -1, the earliest in a byte's high bit.
    Bits1High,
}

impl ValueKind {
    /// How many bits a value has: 1, 2, 8, 16 or 32.
    #[must_use]
    pub fn bits(self) -> usize
        ensures { result ≡ bits_of self }
    {
        match self {
            ValueKind::U8 => 8,
            ValueKind::I8 => 8,
            ValueKind::I16 => 16,
            ValueKind::I16Be => 16,
            ValueKind::F32 => 32,
            ValueKind::Bits2Low => 2,
            ValueKind::SignSizeLow => 2,
            ValueKind::Bits1Low => 1,
            ValueKind::Bits1High => 1,
        }
    }

    /// The least and the greatest reading, but for floats.
    pub(crate) fn ends(self) -> (i64, i64) {
        match self {
            ValueKind::U8 => (0, 510),
            ValueKind::I8 => (-256, 254),
            ValueKind::I16 => (-65536, 65534),
            ValueKind::I16Be => (-65536, 65534),
            ValueKind::F32 => (-0x7f80_0000, 0x7f80_0000),
            ValueKind::Bits2Low => (-6, 6),
            ValueKind::SignSizeLow => (-6, 6),
            ValueKind::Bits1Low => (-2, 2),
            ValueKind::Bits1High => (-2, 2),
        }
    }

    /// Whether each whole value of some bytes is a number: a float may be none.
    pub(crate) fn are_numbers(self, bytes: &[u8]) -> bool
        ensures all { result ≡ true → AreNumbers self bytes.now }
        ensures some { result ≡ false → ¬ AreNumbers self bytes.now }
    {
        match self {
            ValueKind::F32 => are_numbers(bytes),
            _ => true,
        }
    }

    /// Value number `i` of bytes as an integer: twice the value, or for a float an integer that
    /// grows with it.
    ///
    /// # Panics
    ///
    /// Plain Rust panics where the bytes have no such value.
    #[must_use]
    pub fn reading(self, bytes: &[u8], i: usize) -> i64
        requires { bits_of self * (i + 1) ≤ 8 * length bytes.now }
        ensures value { result ≡ reading self bytes.now i }
        ensures small { unsigned_abs result < READING_LIMIT }
    {
        match self {
            ValueKind::U8 => 2 * i64::from(bytes[i]),
            ValueKind::I8 => 2 * signed(128, u32::from(bytes[i])),
            ValueKind::I16 => i64::from(LowFirst.reading(bytes, i)),
            ValueKind::I16Be => i64::from(HighFirst.reading(bytes, i)),
            ValueKind::F32 => i64::from(Floats.reading(bytes, i)),
            ValueKind::Bits2Low => {
                2 * (2 * signed(2, u32::from((bytes[i / 4] >> (2 * (i % 4))) % 4)) + 1)
            }
            ValueKind::SignSizeLow => 2 * sized((bytes[i / 4] >> (2 * (i % 4))) % 4),
            ValueKind::Bits1Low => 2 * sign_of((bytes[i / 8] >> (i % 8)) % 2),
            ValueKind::Bits1High => 2 * sign_of((bytes[i / 8] >> (7 - i % 8)) % 2),
        }
    }
}
