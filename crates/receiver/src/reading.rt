//! The samples of a run, read and taken piece by piece.

ghost use Rattle.std.specs.Prelude.{◌≡◌, ◌≤◌, ◌<◌, ◌↔◌, ◌+◌, ◌-◌, ◌%◌, length, min, true, false};
ghost use Rattle.std.specs.Prelude.{OnOk, IfOk};
ghost use Rattle.definitions.specs.Samples.{sample_count, samples_per_byte};
ghost use Rattle.sample_planes.specs.declared.planes.TheConstants.{MOST_TIME};
ghost use Rattle.sample_planes.specs.declared.planes.TheConstants.{MAX_SAMPLES};
ghost use Rattle.receiver.specs.Outputs.{promised, Writes};
ghost use Rattle.receiver.specs.Runs.{devices_once_sent, ReadsOn, TakesOn, samples_before};
ghost use Rattle.receiver.specs.Sessions.{packing_in, time_of, until_next};

use crate::faults::Stop;
use crate::output::Output;
use crate::session::Session;
use crate::writing::{put_answers, put_events};
use devices::{DeviceFault, Sink, Source};
use sample_planes::{MAX_SAMPLES, MOST_TIME, PackedSamples};

/// The most bytes of a read.
const READ_BYTES: usize = 16_384;

/// Takes a run of samples, none of them past the next command's time, and puts the lines of each
/// time.
fn take_samples<W: Sink>(
    session: &mut Session,
    run: &PackedSamples,
    out: &mut Output<W>,
) -> Result<(), DeviceFault>
    requires packing { run.now.packing ≡ packing_in session.old }
    requires some { 0 < length run.now.samples }
    requires short { length run.now.samples ≤ MAX_SAMPLES }
    requires quiet { length run.now.samples ≤ until_next session.old }
    requires room { time_of session.old + length run.now.samples ≤ MOST_TIME }
    ensures packing { packing_in session.new ≡ packing_in session.old }
    ensures time { time_of session.new ≡ time_of session.old + length run.now.samples }
    ensures ready { OnOk result (0 < until_next session.new) }
    ensures takes { TakesOn run.now.samples session.old session.new (promised W.Sink out.old)
        (promised W.Sink out.new) result }
    ensures writes { Writes W.Sink out.old out.new result }
{
    session.feed(run);
    put_events(session.events(), out)?;
    put_answers(session, out)
}

/// Takes a piece of any length, and puts the lines of each time.
fn take_piece<W: Sink>(
    session: &mut Session,
    piece: &PackedSamples,
    out: &mut Output<W>,
) -> Result<(), DeviceFault>
    requires packing { piece.now.packing ≡ packing_in session.old }
    requires room { time_of session.old + length piece.now.samples ≤ MOST_TIME }
    requires ready { 0 < until_next session.old }
    ensures packing { packing_in session.new ≡ packing_in session.old }
    ensures time { OnOk result
        (time_of session.new ≡ time_of session.old + length piece.now.samples) }
    ensures ready { OnOk result (0 < until_next session.new) }
    ensures takes { TakesOn piece.now.samples session.old session.new (promised W.Sink out.old)
        (promised W.Sink out.new) result }
    ensures writes { Writes W.Sink out.old out.new result }
{
    let count = piece.len();
    let mut first = 0;
    while first < count {
        let most = (count - first).min(MAX_SAMPLES) as u64;
        let len = most.min(session.until_next()) as usize;
        take_samples(session, &piece.part(first, len), out)?;
        first += len;
    }
    Ok(())
}

/// Takes those samples of the bytes that come before the limit, and puts the lines of each time. No
/// byte has samples on both sides of the limit. It answers whether there were samples past it.
fn take_bytes<W: Sink>(
    session: &mut Session,
    limit: u64,
    bytes: &[u8],
    out: &mut Output<W>,
) -> Result<bool, DeviceFault>
    requires limit { limit ≤ MOST_TIME }
    requires within { time_of session.old ≤ limit }
    requires whole { (limit - time_of session.old) % samples_per_byte (packing_in session.old) ≡ 0 }
    requires ready { 0 < until_next session.old }
    ensures packing { packing_in session.new ≡ packing_in session.old }
    ensures time { OnOk result (time_of session.new ≡ min limit (time_of session.old
        + sample_count (packing_in session.old) bytes.now)) }
    ensures ready { OnOk result (0 < until_next session.new) }
    ensures past { IfOk result (λ past. (past ≡ true) ↔ (limit < time_of session.old
        + sample_count (packing_in session.old) bytes.now)) }
    ensures takes { TakesOn (samples_before limit session.old bytes.now) session.old session.new
        (promised W.Sink out.old) (promised W.Sink out.new) result }
    ensures writes { Writes W.Sink out.old out.new result }
{
    let format = session.format();
    let room = (limit - session.time()) / format.per_byte() as u64;
    let used = (bytes.len() as u64).min(room) as usize;
    let piece = PackedSamples::new(format, &bytes[..used]);
    take_piece(session, &piece, out)?;
    Ok(used < bytes.len())
}

/// Reads to the end, to a fault or past the limit, and puts the lines of each time up to there. All
/// that was put is written before each read.
pub fn read_all<R: Source, W: Sink>(
    session: &mut Session,
    limit: u64,
    reader: &mut R,
    out: &mut Output<W>,
) -> Result<Stop, DeviceFault>
    requires limit { limit ≤ MOST_TIME }
    requires whole { limit % 8 ≡ 0 }
    requires start { time_of session.old ≡ 0 }
    requires ready { 0 < until_next session.old }
    ensures once { R.has_failed reader.old ≡ false
        → R.was_asked_again reader.new ≡ R.was_asked_again reader.old }
    ensures packing { packing_in session.new ≡ packing_in session.old }
    ensures reads { ReadsOn limit session.old session.new
        (devices_once_sent R.Source W.Sink reader.old out.old)
        (devices_once_sent R.Source W.Sink reader.new out.new) result }
    ensures writes { Writes W.Sink out.old out.new result }
{
    prove!(limit <= MOST_TIME, "read_all requires limit <= MOST_TIME");
    prove!(limit % 8 == 0, "read_all requires a limit in whole bytes");
    let mut buffer = [0; READ_BYTES];
    loop {
        // Nothing is held back while the run waits for bytes.
        out.send()?;
        let Ok(count) = reader.read(&mut buffer) else {
            return Ok(Stop::ReadFailed);
        };
        if count == 0 {
            return Ok(Stop::AtEnd);
        }
        if take_bytes(session, limit, &buffer[..count], out)? {
            return Ok(Stop::PastLimit);
        }
    }
}
