//! Runs of bytes into a ring and out of it.

ghost use Rattle.std.specs.Prelude.{◌≡◌, ◌+◌, ◌-◌, ◌*◌, ◌<◌, ◌≤◌, [], ◌∷◌, ◌++◌, length, min};
ghost use Rattle.std.specs.Prelude.{drop};
ghost use Rattle.std.specs.List.{slice_range};
ghost use Rattle.circular_buffer.specs.Buffer.{buffer, keep_last};
ghost use Rattle.sample_history.specs.Shifts.{bytes_from, with_bits_behind};
ghost use Rattle.sample_history.specs.declared.shifted_bytes.TheConstants.{MOST_RUN_BYTES};

use crate::shifted_bytes::{MOST_RUN_BYTES, filled_byte, shifted_byte, shifted_bytes};
use circular_buffer::HeapCircularBuffer;

/// Appends `count` bytes, which are the bits of some bytes from bit `place` on. The ring keeps
/// its last ones.
pub(crate) fn append_bits(
    ring: &mut HeapCircularBuffer<u8>,
    bytes: &[u8],
    place: usize,
    count: usize,
)
    requires few { count ≤ MOST_RUN_BYTES }
    requires within { place + 8 * count ≤ 8 * length bytes.now }
    ensures { ring.new ≡ buffer (keep_last ring.old.capacity (ring.old.items
        ++ bytes_from bytes.now place count)) ring.old.capacity }
{
    if place % 8 == 0 {
        ring.extend_from_slice(&bytes[place / 8..place / 8 + count]);
    } else {
        ring.extend_from_slice(&shifted_bytes(bytes, place, count)[..count]);
    }
}

/// Appends the bits of `bytes` from bit `start` on. The first of them fill up the byte `begun`,
/// whose first `used` bits stay. With those that follow `whole` bytes get full. It returns the byte
/// after these. The ring keeps its last bytes.
pub(crate) fn grow(
    ring: &mut HeapCircularBuffer<u8>,
    begun: u8,
    used: usize,
    bytes: &[u8],
    start: usize,
    whole: usize,
) -> u8
    requires used { used < 8 }
    requires start { start < 8 }
    requires few { whole ≤ MOST_RUN_BYTES }
    requires within { start + 8 * whole ≤ 8 * length bytes.now + used }
    requires holds { length ring.old.items ≤ ring.old.capacity }
    ensures capacity { ring.new.capacity ≡ ring.old.capacity }
    ensures count { length ring.new.items ≡ min ring.old.capacity
        (length ring.old.items + whole) }
    ensures bytes { ring.new.items ++ result ∷ []
        ≡ drop (length ring.old.items + whole - length ring.new.items)
        (with_bits_behind ring.old.items begun used bytes.now start whole) }
{
    if used == 0 {
        // No byte is begun, so that all come at once.
        append_bits(ring, bytes, start, whole);
        return shifted_byte(bytes, start + 8 * whole);
    }
    let head = filled_byte(begun, shifted_byte(bytes, start), used);
    if whole == 0 {
        return head;
    }
    let behind = start + 8 - used;
    ring.push_back(head);
    append_bits(ring, bytes, behind, whole - 1);
    shifted_byte(bytes, behind + 8 * (whole - 1))
}

/// Copies bytes out of a ring, from byte `at` of it on.
pub(crate) fn copy_out(ring: &HeapCircularBuffer<u8>, at: usize, to: &mut [u8])
    requires { at + length to.old ≤ length ring.now.items }
    ensures { to.new ≡ slice_range ring.now.items at (at + length to.old) }
{
    let (front, back) = ring.as_slices();
    let len = to.len();
    if at + len <= front.len() {
        to.copy_from_slice(&front[at..at + len]);
    } else if front.len() <= at {
        let at = at - front.len();
        to.copy_from_slice(&back[at..at + len]);
    } else {
        let (first, rest) = to.split_at_mut(front.len() - at);
        first.copy_from_slice(&front[at..]);
        rest.copy_from_slice(&back[..rest.len()]);
    }
}
