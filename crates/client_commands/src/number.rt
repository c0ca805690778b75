//! The numbers that words write.

ghost use Rattle.std.specs.Prelude.{◌≡◌, ◌<◌, ◌^◌, IfSome};
ghost use Rattle.definitions.specs.Scripts.{number_in as defined_number_in};
ghost use Rattle.definitions.specs.Scripts.{signed_number_in as defined_signed_number_in};

/// The most digits of a number.
const MOST_DIGITS: usize = 13;

/// The number that a word of 1 to 13 digits writes.
pub(crate) fn number_in(word: &[u8]) -> Option<u64>
    ensures same { result ≡ defined_number_in word.now }
    ensures short { IfSome result (λ number. number < 10 ^ 13) }
{
    if word.is_empty() || MOST_DIGITS < word.len() {
        return None;
    }
    let mut number = 0;
    for digit in word {
        if !digit.is_ascii_digit() {
            return None;
        }
        number = 10 * number + u64::from(*digit - b'0');
    }
    Some(number)
}

/// The number that a word writes: 1 to 13 digits, with or without a leading `-`.
pub(crate) fn signed_number_in(word: &[u8]) -> Option<i64>
    ensures { result ≡ defined_signed_number_in word.now }
{
    match word {
        [b'-', digits @ ..] => number_in(digits).map(|number| -(number as i64)),
        _ => number_in(word).map(|number| number as i64),
    }
}
