//! Both parts of a run of samples, unpacked together.

ghost use Rattle.std.specs.Prelude.{◌≡◌, ◌+◌, ◌<◌, ◌≤◌, ℕ, length, true};
ghost use Rattle.definitions.specs.Samples.{sample, samples_per_byte};
ghost use Rattle.sample_planes.specs.Packings.{packing_of, has_quadrature};
ghost use Rattle.sample_planes.specs.Signs.{part_at};
ghost use Rattle.sample_planes.specs.declared.layout.TheConstants.{NEAR_BYTES};
ghost use Rattle.sample_planes.specs.declared.planes.TheConstants.{MAX_SAMPLES};

use crate::format::Format;
use crate::layout::{NEAR_BYTES, WordLayout};
use crate::part::Part;
use crate::planes::MAX_SAMPLES;

/// Makes parts those of `len` samples of `near`, from sample `start` of its first byte on. Where
/// the samples are real, what `quadrature` has is kept. So is what the parts have after the last
/// word of samples, so that nothing has to be cleared.
pub(crate) fn fill_parts(
    in_phase: &mut Part,
    quadrature: &mut Part,
    format: Format,
    near: &[u8],
    start: usize,
    len: usize,
)
    requires start { start < samples_per_byte (packing_of format) }
    requires short { len ≤ MAX_SAMPLES }
    requires long { NEAR_BYTES ≤ length near.now }
    ensures in_phase { (i : ℕ) → i < len → part_at in_phase.new i
        ≡ (sample (packing_of format) near.now (start + i)).in_phase }
    ensures quadrature { has_quadrature (packing_of format) ≡ true
        → (i : ℕ) → i < len → part_at quadrature.new i
        ≡ (sample (packing_of format) near.now (start + i)).quadrature }
{
    prove!(len <= MAX_SAMPLES, "fill_parts requires len <= MAX_SAMPLES");
    prove!(
        NEAR_BYTES <= near.len(),
        "fill_parts requires NEAR_BYTES <= near.len()"
    );
    let width = format.width();
    let has_sizes = format.has_sizes();
    let is_complex = format.has_quadrature();
    let layout = WordLayout::new(width, start);
    for w in 0..(len + 63) / 64 {
        // Both parts of a sample lie in one byte, so it is looked up once.
        let bytes = layout.bytes(near, w);
        in_phase.put(w, layout.codes(bytes, 0, has_sizes));
        if is_complex {
            quadrature.put(w, layout.codes(bytes, width / 2, has_sizes));
        }
    }
}
