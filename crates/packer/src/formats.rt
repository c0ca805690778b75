//! Kinds of recordings and packings, by the names that options have for them.

ghost use Rattle.std.specs.Prelude.{◌≡◌, Err, IfErr, true, codes, option_and_then, is_some};
ghost use Rattle.std.specs.Result.{result_ok};
ghost use Rattle.clap.specs.Matches.{found_of, first_value};
ghost use Rattle.sample_planes.specs.Names.{named_format};
ghost use Rattle.packer.specs.Statuses.{status_of};
ghost use Rattle.packer.specs.Options.{from_in, is_pairs_name, kind_in, named_kind, is_measured_in};
ghost use Rattle.packer.specs.Options.{format_in, says_how_to_pack};

use crate::failure::Failure;
use crate::options::{is_measured, is_set};
use clap::ArgMatches;
use recordings::ValueKind;
use sample_planes::Format;

/// The kinds that `--from` takes.
pub static KINDS: [&str; 18] = [
    "u8",
    "i8",
    "i16",
    "i16be",
    "f32",
    "bits2-low",
    "bits2-sm-low",
    "bits1-low",
    "bits1-high",
    "iq-u8",
    "iq-i8",
    "iq-i16",
    "iq-i16be",
    "iq-f32",
    "iq-bits2-low",
    "iq-bits2-sm-low",
    "iq-bits1-low",
    "iq-bits1-high",
];

/// Whether the recording's values are pairs, and their kind.
pub fn from(matches: &ArgMatches) -> (bool, ValueKind)
    ensures pairs { result.0 ≡ is_pairs_name (from_in (found_of matches.now)) }
    ensures kind { result.1 ≡ kind_in (from_in (found_of matches.now)) }
{
    kind(matches.get_str("from").unwrap_or("u8"))
}

/// Whether the values are pairs, and their kind, by a name.
fn kind(name: &str) -> (bool, ValueKind)
    ensures pairs { result.0 ≡ is_pairs_name name.now }
    ensures kind { result.1 ≡ kind_in name.now }
{
    match name.strip_prefix("iq-") {
        Some(rest) => (true, named_kind(rest)),
        None => (false, named_kind(name)),
    }
}

/// A kind by its name.
fn named_kind(name: &str) -> ValueKind
    ensures { result ≡ named_kind name.now }
{
    match name {
        "i8" => ValueKind::I8,
        "i16" => ValueKind::I16,
        "i16be" => ValueKind::I16Be,
        "f32" => ValueKind::F32,
        "bits2-low" => ValueKind::Bits2Low,
        "bits2-sm-low" => ValueKind::SignSizeLow,
        "bits1-low" => ValueKind::Bits1Low,
        "bits1-high" => ValueKind::Bits1High,
        _ => ValueKind::U8,
    }
}

/// The packing to write, or one of signs alone for what is measured, which is not written.
pub fn format(matches: &ArgMatches, is_paired: bool) -> Result<Format, Failure>
    ensures value { result_ok result ≡ format_in (found_of matches.now) is_paired }
    ensures status { IfErr result (λ failure. status_of (Err failure) ≡ 2) }
{
    if is_measured(matches) {
        measured_format(matches, is_paired)
    } else {
        written_format(matches)
    }
}

/// A packing of signs alone for what is measured.
fn measured_format(matches: &ArgMatches, is_paired: bool) -> Result<Format, Failure>
    requires { is_measured_in (found_of matches.now) ≡ true }
    ensures value { result_ok result ≡ format_in (found_of matches.now) is_paired }
    ensures status { IfErr result (λ failure. status_of (Err failure) ≡ 2) }
{
    match packing_option(matches) {
        Some(name) => Err(Failure::NotPacked(name)),
        None if is_paired => Ok(Format::Iq1),
        None => Ok(Format::Real1),
    }
}

/// The name of an option that says how to pack, where there is one.
fn packing_option(matches: &ArgMatches) -> Option<&'static str>
    ensures { is_some result ≡ says_how_to_pack (found_of matches.now) }
{
    if is_given(matches, "to") {
        Some("to")
    } else if is_given(matches, "threshold") {
        Some("threshold")
    } else if is_given(matches, "centre") {
        Some("centre")
    } else if is_given(matches, "centre-q") {
        Some("centre-q")
    } else if is_set(matches, "conjugate") {
        Some("conjugate")
    } else {
        None
    }
}

/// Whether an option with a value is there.
fn is_given(matches: &ArgMatches, name: &str) -> bool
    ensures { result ≡ is_some (first_value (found_of matches.now) name.now) }
{
    matches.get_str(name).is_some()
}

/// The packing to write.
fn written_format(matches: &ArgMatches) -> Result<Format, Failure>
    ensures value { result_ok result
        ≡ option_and_then named_format (first_value (found_of matches.now) (codes "to")) }
    ensures status { IfErr result (λ failure. status_of (Err failure) ≡ 2) }
{
    let Some(name) = matches.get_str("to") else {
        return Err(Failure::NoFormat);
    };
    match Format::named(name) {
        Some(format) => Ok(format),
        None => Err(Failure::NoFormat),
    }
}
