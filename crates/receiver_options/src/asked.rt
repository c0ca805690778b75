//! What the options ask for.

ghost use Rattle.std.specs.Prelude.{◌≡◌, ◌<◌, ◌*◌, ◌↔◌, pos, neg_ℤ, if◌then◌else◌, Err, IfOk};
ghost use Rattle.std.specs.Prelude.{codes, map, option_map};
ghost use Rattle.clap.specs.Walk.{first_of, one_of};
ghost use Rattle.receiver_options.specs.CommandLines.{options_in};
ghost use Rattle.sample_planes.specs.Packings.{packing_of};
ghost use Rattle.oscillators.specs.Limits.{IsRate};
ghost use Rattle.receiver_options.specs.Requests.{IsAllowed, asked_in, recording_of};
ghost use Rattle.receiver_options.specs.Requests.{number_in, flag_in, format_in, paths_in};

use clap::ArgMatches;
use oscillators::{Settings, SettingsFault};
use sample_planes::Format;

/// The settings that the options ask for.
pub fn settings(matches: &ArgMatches) -> Result<Settings, SettingsFault>
    ensures rate { (result ≡ Err SettingsFault.Rate)
        ↔ ¬ IsRate (asked_in (options_in matches.now)).rate }
    ensures offset { (result ≡ Err SettingsFault.Offset)
        ↔ (IsRate (asked_in (options_in matches.now)).rate
        × ((asked_in (options_in matches.now)).rate
        < 2 * (asked_in (options_in matches.now)).offset)) }
    ensures allowed { IfOk result (λ _. IsAllowed (asked_in (options_in matches.now))) }
    ensures same { IfOk result (λ settings.
        settings ≡ recording_of (asked_in (options_in matches.now))) }
{
    settings_of(
        number(matches, "rate", 2_046_000),
        number(matches, "offset", 0),
        flag(matches, "minus"),
        packing(matches),
    )
}

/// Settings by the words of the options.
fn settings_of(
    rate: u32,
    offset: u32,
    is_minus: bool,
    format: Format,
) -> Result<Settings, SettingsFault>
    ensures rate { (result ≡ Err SettingsFault.Rate) ↔ ¬ IsRate rate }
    ensures offset { (result ≡ Err SettingsFault.Offset) ↔ (IsRate rate × (rate < 2 * offset)) }
    ensures same { IfOk result (λ settings. settings ≡ record {
      rate = rate;
      offset = if is_minus then neg_ℤ (pos offset) else pos offset;
      packing = packing_of format;
    }) }
{
    let offset = i64::from(offset);
    let offset = if is_minus { -offset } else { offset };
    Settings::new(rate, offset, format)
}

/// The number of an option, or its default.
fn number(matches: &ArgMatches, id: &str, default: u32) -> u32
    ensures { result ≡ number_in (one_of id.now (options_in matches.now)) default }
{
    matches.get_one(id).unwrap_or(default)
}

/// Whether a flag is set.
fn flag(matches: &ArgMatches, id: &str) -> bool
    ensures { result ≡ flag_in (one_of id.now (options_in matches.now)) }
{
    matches.get_one(id).unwrap_or(false)
}

/// The text of an option that has one.
pub fn text<'w>(matches: &ArgMatches<'w>, id: &str) -> Option<&'w str>
    ensures { option_map (λ text. text.now) result ≡ first_of id.now (options_in matches.now) }
{
    matches.get_str(id)
}

/// The format of the samples.
fn packing(matches: &ArgMatches) -> Format
    ensures { packing_of result ≡ format_in (first_of (codes "format") (options_in matches.now)) }
{
    let Some(name) = text(matches, "format") else {
        return Format::Real1;
    };
    Format::named(name).unwrap_or(Format::Real1)
}

/// The names of the script files, in the order of the command line.
pub fn scripts<'m>(matches: &'m ArgMatches) -> &'m [&'m str]
    ensures { map (λ path. path.now) result.now ≡ paths_in (options_in matches.now) }
{
    matches.get_strs("script").unwrap_or(&[])
}
