//! What a slot follows.

use channels::{Followed, Searched};

/// What a slot follows: nothing, a satellite that is searched for, or one that is found.
#[derive(Debug, Drop)]
pub enum Stage {
    Idle,
    Searching(Searched),
    Following(Followed),
}
