//! The assertions of these tests. Each is a call, which the prover follows no further. As plain
//! Rust one that fails names the line of that call.

ghost use Rattle.std.specs.Prelude.{◌≡◌, true};

use assertions::{same, same_at};
use std::alloc::{Alloc, Global};
use std::fmt::{Debug, Display};
use std::process::Abort;

/// Asserts that two values are the same. It ends the program where they differ.
#[track_caller]
pub fn assert_same<T: PartialEq + Debug + Drop>(rt: &impl Abort, found: T, expected: T)
    ensures { T.eq found expected ≡ true }
{
    same(found, expected).expect(rt, "not the same")
}

/// Asserts that two values are the same at a place. It ends the program where they differ.
#[track_caller]
pub fn assert_same_at<P: Debug + Drop, T: PartialEq + Debug + Drop>(
    rt: &impl Abort,
    place: P,
    found: T,
    expected: T,
)
    ensures { T.eq found expected ≡ true }
{
    same_at(place, found, expected).expect(rt, "not the same")
}

/// Asserts a condition, which is then known. It ends the program where that isn't so.
#[track_caller]
pub fn assert_that(rt: &impl Abort, condition: bool)
    ensures { condition ≡ true }
{
    if !condition {
        panic!(*rt; "assertion failed")
    }
}

/// Asserts what a fault is shown as.
#[track_caller]
pub fn assert_shown<F: Display + Drop>(
    rt: &(impl Abort + Alloc<A = Global>),
    fault: F,
    text: &str,
) {
    let shown = fault.to_string(rt.alloc()).expect(rt, "no memory");
    assert_same(rt, shown.as_str(), text);
}
