//! The program, from its options to the end of its run.

ghost use Rattle.std.specs.Prelude.{◌≡◌, map, IfOk, IfErr};
ghost use Rattle.receiver_options.specs.CommandLines.{options_in};
ghost use Rattle.receiver_options.specs.Requests.{asked_in, paths_in};
ghost use Rattle.receiver_options.specs.declared.fault.OptionFault.TheVariants as options;
ghost use Rattle.receiver_cli.specs.Programs.{Receives, RunsTexts, one_or_more};

use crate::failure::Failure;
use channel_slots::MOST_TIME;
use clap::ArgMatches;
use oscillators::Settings;
use receiver::{Sink, Source, run_shares};
use receiver_options::{ScriptFiles, read_scripts, shares};
use std::alloc::Global;

/// Runs the scripts that the options name, in their order, or an empty one where they name none,
/// over a reader and a writer.
pub fn receive<S: ScriptFiles, R: Source, W: Sink>(
    alloc: Global,
    files: &S,
    matches: &ArgMatches,
    reader: &mut R,
    writer: &mut W,
) -> Result<u64, Failure>
    ensures receives { Receives R.Source W.Sink
        (asked_in (options_in matches.now))
        (map (λ path. S.bytes_of files.now path) (paths_in (options_in matches.now)))
        (reader.old, writer.old) (reader.new, writer.new) result }
{
    let settings = match receiver_options::settings(matches) {
        Ok(settings) => settings,
        Err(fault) => return Err(Failure::Settings(fault)),
    };
    let paths = receiver_options::scripts(matches);
    let shares = shares(alloc, matches, paths.len().max(1))?;
    let texts = read_scripts(alloc, files, paths)?;
    run_texts(alloc, settings, &shares, &texts, reader, writer)
}

/// Runs these scripts, or an empty one where there are none, with these shares of the slots.
fn run_texts<R: Source, W: Sink>(
    alloc: Global,
    settings: Settings,
    shares: &[u8],
    texts: &[Vec<u8>],
    reader: &mut R,
    writer: &mut W,
) -> Result<u64, Failure>
    ensures runs { RunsTexts R.Source W.Sink settings shares.now
        (map (λ text. text.items) texts.now) (reader.old, writer.old) (reader.new, writer.new)
        result }
{
    let scripts = one_or_more(alloc, texts)?;
    match run_shares(alloc, settings, &scripts, shares, MOST_TIME, reader, writer) {
        Ok(samples) => Ok(samples),
        Err(fault) => Err(Failure::Run(fault)),
    }
}

/// The scripts of a run: these texts, or an empty one where there are none.
fn one_or_more<'t>(alloc: Global, texts: &'t [Vec<u8>]) -> Result<Vec<&'t [u8]>, Failure>
    ensures scripts { IfOk result (λ scripts. map (λ script. script.now) scripts.items
        ≡ one_or_more (map (λ text. text.items) texts.now)) }
    ensures fault { IfErr result (λ failure. failure ≡ Failure.Options options.NoMemory) }
{
    let mut scripts: Vec<&[u8]> = Vec::new(alloc);
    for text in texts {
        scripts.push(text.as_slice())?;
    }
    if scripts.is_empty() {
        scripts.push(&[])?;
    }
    Ok(scripts)
}
