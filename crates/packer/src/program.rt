//! The program, from its words to its status.

ghost use Rattle.std.specs.Prelude.{◌≡◌, ◌⊎◌, Bool, IfErr};
ghost use Rattle.std.specs.Process.{exit_status};
ghost use Rattle.clap.specs.Matches.{found_of};
ghost use Rattle.clap.specs.Values.{kind_of};
ghost use Rattle.devices.specs.Moments.{devices_at};
ghost use Rattle.packer.specs.Statuses.{status_of};
ghost use Rattle.packer.specs.Endings.{HasEnded, CarriesOut, parser_status};

use crate::failure::{Failure, status};
use crate::measuring::measure;
use crate::options;
use crate::running::run;
use clap::error::ErrorKind;
use clap::{ArgMatches, Error};
use devices::{Sink, Source};
use recordings::Packer;
use std::alloc::AllocGlobal;
use std::env::{self, Env};
use std::io::{self, Eprint, Print};
use std::process::ExitCode;

/// Does what the words of the command line ask for, with this reader and writer, and gives the
/// status. It reports on standard error what went wrong, and which bytes at the end are left out.
pub fn carry_out<T, R, W>(rt: &T, reader: &mut R, writer: &mut W) -> ExitCode
where
    T: AllocGlobal + Env + Print + Eprint,
    R: Source,
    W: Sink,
    ensures status { HasEnded (devices_at R.Source W.Sink reader.old writer.old)
        (devices_at R.Source W.Sink reader.new writer.new) (exit_status result) }
{
    let words = match words(rt) {
        Ok(words) => words,
        Err(failure) => return tell(rt, Err(failure)),
    };
    match options::matches(rt.alloc(), &words) {
        Ok(matches) => tell(rt, pack(rt, &matches, reader, writer)),
        Err(error) => refuse(rt, &error),
    }
}

/// The words of the command line, the program's name first.
fn words<T: AllocGlobal + Env>(rt: &T) -> Result<Vec<String>, Failure>
    ensures fault { IfErr result (λ failure.
        (failure ≡ Failure.NoMemory) ⊎ (failure ≡ Failure.Words)) }
{
    let mut words = Vec::new(rt.alloc());
    let args = match env::args(rt) {
        Ok(args) => args,
        Err(error) if error.kind() == io::ErrorKind::OutOfMemory => return Err(Failure::NoMemory),
        Err(_) => return Err(Failure::Words),
    };
    for word in args {
        words.push(word)?;
    }
    Ok(words)
}

/// Packs or measures as the options ask.
fn pack<T, R, W>(
    rt: &T,
    matches: &ArgMatches,
    reader: &mut R,
    writer: &mut W,
) -> Result<(), Failure>
where
    T: AllocGlobal + Print + Eprint,
    R: Source,
    W: Sink,
    ensures carries_out { CarriesOut (found_of matches.now)
        (devices_at R.Source W.Sink reader.old writer.old)
        (devices_at R.Source W.Sink reader.new writer.new) result }
{
    let recipe = options::recipe(matches)?;
    let mut stretch = options::stretch(matches, &recipe)?;
    if options::is_measured(matches) {
        return measure(rt, &recipe, &mut stretch, reader);
    }
    let mut packer = Packer::new(rt.alloc(), recipe)?;
    run(rt.alloc(), &mut packer, &mut stretch, reader, writer)?;
    tell_rest(rt, &packer);
    Ok(())
}

/// Reports what is left out at the end.
fn tell_rest<E: Eprint>(rt: &E, packer: &Packer) {
    let samples = packer.samples_held();
    // Where standard error fails, there is nowhere else to report it.
    if samples > 0 {
        let _ = eprintln!(rt;
            "pack: left out at the end: samples that don't fill a byte: {samples}"
        );
    }
    if packer.ends_inside() {
        let _ = eprintln!(rt; "pack: left out at the end: a part of a sample");
    }
}

/// Prints what the option parser says where it gives no options, and gives the status.
fn refuse<P: Print + Eprint>(rt: &P, error: &Error) -> ExitCode
    ensures status { (is_printed : Bool)
        × (exit_status result ≡ parser_status is_printed (kind_of error.now)) }
{
    let kind = error.kind();
    let is_printed = kind != ErrorKind::OutOfMemory && error.print(rt).is_ok();
    match kind {
        ErrorKind::OutOfMemory => report(rt, Failure::NoMemory),
        ErrorKind::DisplayHelp | ErrorKind::DisplayVersion if !is_printed => {
            report(rt, Failure::Output);
        }
        _ => {}
    }
    ExitCode::from(parser_status(kind, is_printed))
}

/// The status where the option parser gives no options: 0 where help was asked for, 1 where it had
/// no memory or the help couldn't be printed, and 2 where it refuses.
fn parser_status(kind: ErrorKind, is_printed: bool) -> u8
    ensures { result ≡ parser_status is_printed kind }
{
    match kind {
        ErrorKind::DisplayHelp | ErrorKind::DisplayVersion if is_printed => 0,
        ErrorKind::DisplayHelp | ErrorKind::DisplayVersion | ErrorKind::OutOfMemory => 1,
        _ => 2,
    }
}

/// Reports what went wrong, where something did, and gives the status.
fn tell<E: Eprint>(rt: &E, ended: Result<(), Failure>) -> ExitCode
    ensures status { exit_status result ≡ status_of ended }
{
    if let Err(failure) = ended {
        report(rt, failure);
    }
    ExitCode::from(status(ended))
}

/// Reports a failure on standard error. Where that fails too, only the status shows it.
fn report<E: Eprint>(rt: &E, failure: Failure) {
    let _ = eprintln!(rt; "pack: {failure}");
}
