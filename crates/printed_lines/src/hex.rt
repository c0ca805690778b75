//! Hexadecimal digits.

ghost use Rattle.std.specs.Prelude.{◌≡◌, ◌<◌, false};
ghost use Rattle.std.specs.Fmt.{digit_glyph};

/// The lower case hexadecimal digit of a number below 16.
pub(crate) fn hex_digit(n: u8) -> u8
    requires { n < 16 }
    ensures { result ≡ digit_glyph false n }
{
    if n < 10 { b'0' + n } else { b'a' - 10 + n }
}
