//! Sums with a replica that is made as it is needed, 64 samples at a time.

ghost use Rattle.std.specs.Prelude.{◌≡◌, ◌+◌, ◌*◌, ◌<◌, ◌≤◌, length};
ghost use Rattle.definitions.specs.Samples.{sample_at};
ghost use Rattle.definitions.specs.Correlation.{six_sums, replica_of};
ghost use Rattle.lane_correlator.specs.Counting.{counts_in, AreWithin};
ghost use Rattle.lane_correlator.specs.ReplicaWords.{phases_of, HaveRoom};
ghost use Rattle.oscillators.specs.declared.carrier.TheConstants.{MOST_PRODUCT};
ghost use Rattle.sample_planes.specs.declared.planes.TheConstants.{MAX_SAMPLES};

use crate::counts::Counts;
use crate::replica::{RunPart, WordReplica};
use ca_codes::{CodeBook, Prn};
use oscillators::{CarrierOsc, CodeOsc};
use sample_planes::Planes;

/// The six sums over `count` samples of a run, from sample `from` on, in units of sample times
/// carrier. They are those with a satellite's replica whose oscillators stand at sample `from`. A
/// sum is at most `MOST_PRODUCT` times the number of samples in size. The book stands for the codes
/// as before.
pub fn replica_sums(
    samples: &Planes,
    from: usize,
    count: usize,
    carrier: &CarrierOsc,
    code: &CodeOsc,
    book: &mut CodeBook,
    prn: Prn,
) -> Counts
    requires { from + count ≤ length samples.now }
    ensures sums { counts_in result ≡ six_sums (λ j. sample_at samples.now (from + j))
        (replica_of prn (phases_of carrier.now code.now)) 0 count }
    ensures small { AreWithin (MOST_PRODUCT * count) (counts_in result) }
    ensures few { count ≤ MAX_SAMPLES }
{
    let to = samples.len().min(from + count);
    let before = (from % 64) as u32;
    let mut replica = WordReplica {
        prn,
        carrier: carrier.words(before),
        code: code.words(before),
    };
    let most = words_of_lanes(samples);
    let mut counts = Counts::NONE;
    let mut here = from;
    while here < to {
        let next = to.min(64 * (here / 64 + most));
        let part = RunPart {
            samples,
            from: here,
            to: next,
        };
        let more = replica.sums(&part, book);
        counts = counts.add(&more);
        here = next;
    }
    counts
}

/// How many words lanes have room for.
fn words_of_lanes(samples: &Planes) -> usize
    ensures room { HaveRoom samples.now result }
    ensures some { 0 < result }
    ensures few { result ≤ 21 }
{
    // A lane takes two products of a word, each at most 3 in size or 9, and holds at most 127.
    if samples.has_sizes() { 7 } else { 21 }
}
