//! Parts of what tests set up, and samples that they see.

use crate::asserted::{assert_same, assert_same_at};
use ca_codes::Prn;
use oscillators::HalfChip;
use sample_planes::Planes;
use std::process::Abort;

/// The satellite of a number, 1 to 32.
pub fn satellite(rt: &impl Abort, number: u8) -> Prn {
    Prn::new(number).expect(rt, "no such satellite")
}

/// The half chip of a number, 0 to 2,045.
pub fn half_chip(rt: &impl Abort, number: u16) -> HalfChip {
    HalfChip::new(number).expect(rt, "no such half chip")
}

/// Asserts how many samples there are, and their parts in phase; those in quadrature are 0.
pub fn assert_samples(rt: &impl Abort, planes: &Planes, expected: &[i8]) {
    assert_same(rt, planes.len(), expected.len());
    for i in 0..planes.len().min(expected.len()) {
        let found = (planes.value(i), planes.value_q(i));
        assert_same_at(rt, i, found, (expected[i], 0));
    }
}
