//! What is chosen for a recording that is packed.

use recordings::{Choice, Packer, Recipe, ValueKind};
use sample_planes::Format;
use std::alloc::{Alloc, Global};
use std::process::Abort;

/// Signs of values as they are, about 0.
pub fn signs(kind: ValueKind, is_paired: bool, format: Format) -> Choice {
    Choice {
        kind,
        is_paired,
        format,
        threshold: 0,
        centre: 0,
        centre_q: 0,
        is_swapped: false,
        is_conjugate: false,
        takes_quadrature: false,
    }
}

/// The recipe of a choice that isn't refused.
pub fn recipe_of(rt: &impl Abort, choice: &Choice) -> Recipe {
    choice.recipe().expect(rt, "no such choice")
}

/// A packer that took nothing.
pub fn packer_of(rt: &(impl Abort + Alloc<A = Global>), choice: &Choice) -> Packer {
    Packer::new(rt.alloc(), recipe_of(rt, choice)).expect(rt, "no memory")
}
