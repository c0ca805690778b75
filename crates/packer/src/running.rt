//! A recording through the packer, from a reader to a writer.

ghost use Rattle.std.specs.Prelude.{◌≡◌, ◌<◌, ◌≤◌, ℕ, List, [], Option, Some, Ok, true, false};
ghost use Rattle.std.specs.Prelude.{length, take, drop, IfOk, IfErr, OnOk, OnErr};
ghost use Rattle.std.specs.Io.{ReadsAtMost};
ghost use Rattle.std.specs.Io.KnownBytes.{Appends, Keeps, ReadConsumes};
ghost use Rattle.recordings.specs.Packers.{StandsFor, recipe_in};
ghost use Rattle.recordings.specs.Stretches.{Shows};
ghost use Rattle.recordings.specs.declared.packer.TheConstants.{MOST_PIECE};
ghost use Rattle.recordings.specs.declared.recipe.Recipe.{Recipe};
ghost use Rattle.devices.specs.Calls.{ReportsFailure};
ghost use Rattle.devices.specs.Moments.{devices_at};
ghost use Rattle.packer.specs.Devices.{SaysWhich, AppendsFront};
ghost use Rattle.packer.specs.Runs.{HasPacked, HasBrokenOff, Packs, IsCourse, bytes_ahead};

use crate::failure::Failure;
use devices::{DeviceFault, Sink, Source};
use recordings::{MOST_PIECE, Packer, Stretch};
use std::alloc::{AllocError, Global};

/// Packs the stretch of a recording that is wanted, piece by piece as reads give it. However they
/// cut it, what is written is the packing of that stretch, or after a failure a front of it.
pub fn run<R: Source, W: Sink>(
    alloc: Global,
    packer: &mut Packer,
    stretch: &mut Stretch,
    reader: &mut R,
    writer: &mut W,
) -> Result<(), Failure>
    ensures which { SaysWhich (devices_at R.Source W.Sink reader.old writer.old)
        (devices_at R.Source W.Sink reader.new writer.new) result }
    ensures packs { (skip most : ℕ) (all : List ℕ) → R.remaining reader.old ≡ Some all
        → Shows skip most [] [] stretch.old → StandsFor [] [] packer.old
        → Packs (recipe_in packer.old) (take most (drop skip all))
        (W.contents writer.old) (W.contents writer.new) result }
{
    let mut buffer = zeros(alloc, MOST_PIECE)?;
    let mut written = Vec::with_capacity(alloc, MOST_PIECE)?;
    loop {
        let goes_on = step(packer, stretch, reader, writer, &mut buffer, &mut written)?;
        if !goes_on {
            return flush(writer);
        }
    }
}

/// Passes on what the writer may hold back.
fn flush<W: Sink>(writer: &mut W) -> Result<(), Failure>
    ensures bytes { Keeps (W.contents writer.old) (W.contents writer.new) }
    ensures failure { ReportsFailure (W.has_failed writer.old) (W.has_failed writer.new) result }
    ensures fault { IfErr result (λ failure. failure ≡ Failure.Output) }
{
    match writer.flush() {
        Ok(()) => Ok(()),
        Err(_) => Err(Failure::Output),
    }
}

/// Packs one more piece, and answers whether there may be another.
fn step<R: Source, W: Sink>(
    packer: &mut Packer,
    stretch: &mut Stretch,
    reader: &mut R,
    writer: &mut W,
    buffer: &mut [u8],
    written: &mut Vec<u8>,
) -> Result<bool, Failure>
    requires some { 0 < length buffer.old }
    requires short { length buffer.old ≤ MOST_PIECE }
    ensures which { SaysWhich (devices_at R.Source W.Sink reader.old writer.old)
        (devices_at R.Source W.Sink reader.new writer.new) result }
    ensures fewer { result ≡ Ok true → bytes_ahead stretch.new < bytes_ahead stretch.old }
    ensures goes_on { result ≡ Ok true
        → (recipe : Recipe) (skip most : ℕ) (all : List ℕ) (start : Option (List ℕ))
        → IsCourse recipe skip most all start (R.remaining reader.old)
        (W.contents writer.old) stretch.old packer.old
        → IsCourse recipe skip most all start (R.remaining reader.new)
        (W.contents writer.new) stretch.new packer.new }
    ensures ends { result ≡ Ok false
        → (recipe : Recipe) (skip most : ℕ) (all : List ℕ) (start : Option (List ℕ))
        → IsCourse recipe skip most all start (R.remaining reader.old)
        (W.contents writer.old) stretch.old packer.old
        → HasPacked recipe (take most (drop skip all)) start (W.contents writer.new) }
    ensures fails { IfErr result (λ failure.
        (recipe : Recipe) (skip most : ℕ) (all : List ℕ) (start : Option (List ℕ))
        → IsCourse recipe skip most all start (R.remaining reader.old)
        (W.contents writer.old) stretch.old packer.old
        → HasBrokenOff recipe (take most (drop skip all)) start (W.contents writer.new)
        failure) }
{
    if stretch.is_over() {
        return Ok(false);
    }
    let count = read(reader, buffer)?;
    if count == 0 {
        return Ok(false);
    }
    packer.take(stretch.part(&buffer[..count]), written)?;
    match write_all(writer, written) {
        Ok(()) => Ok(true),
        Err(_) => Err(Failure::Output),
    }
}

/// Writes all of the bytes, by as many writes as it takes. After an error some of them may be
/// written, from the first on.
fn write_all<W: Sink>(writer: &mut W, bytes: &[u8]) -> Result<(), DeviceFault>
    ensures ok { OnOk result
        (Appends (W.contents writer.old) (W.contents writer.new) bytes.now) }
    ensures err { OnErr result
        (AppendsFront (W.contents writer.old) (W.contents writer.new) bytes.now) }
    ensures failure { ReportsFailure (W.has_failed writer.old) (W.has_failed writer.new) result }
{
    let mut sent = 0;
    while sent < bytes.len() {
        sent += writer.write(&bytes[sent..])?;
    }
    Ok(())
}

/// Reads some bytes, and answers how many: 0 only at the end.
pub fn read<R: Source>(reader: &mut R, buffer: &mut [u8]) -> Result<usize, Failure>
    requires some { 0 < length buffer.old }
    ensures bound { ReadsAtMost result buffer.new }
    ensures bytes { ReadConsumes (R.remaining reader.old) (R.remaining reader.new)
        result buffer.new }
    ensures failure { ReportsFailure (R.has_failed reader.old) (R.has_failed reader.new) result }
    ensures fault { IfErr result (λ failure. failure ≡ Failure.Input) }
{
    match reader.read(buffer) {
        Ok(count) => Ok(count),
        Err(_) => Err(Failure::Input),
    }
}

/// A list of so many bytes, each 0.
pub fn zeros(alloc: Global, count: usize) -> Result<Vec<u8>, AllocError>
    ensures { IfOk result (λ bytes. length bytes.items ≡ count) }
{
    vec![in alloc; 0u8; count]
}
