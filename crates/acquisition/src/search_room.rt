//! The room of a search.

ghost use Rattle.std.specs.Prelude.{◌≡◌, ◌<◌, ◌≤◌, vec_len, vec_capacity};

use crate::bin_powers::BinPowers;
use std::alloc::{AllocError, Global};

/// Room for what one search works on. All of its memory is reserved when it is made. Nothing is
/// written there before a search has it, so that a system can leave it without pages until then.
#[derive(Debug, Drop)]
pub struct SearchRoom {
    /// The powers of the bin that is worked on, once there was a search; nothing before.
    pub(crate) powers: Vec<BinPowers>,
    ghost reserved: { 0 < vec_capacity powers },
    ghost few: { vec_len powers ≤ 1 },
}

impl SearchRoom {
    ghost use Rattle.std.specs.Prelude.{ℕ};
    ghost use Rattle.definitions.specs.Samples.{Sample};
    ghost use Rattle.acquisition.specs.Powers.{AreSoFar};
    ghost use Rattle.acquisition.specs.declared.bin_steps.Steps.{Steps};
    ghost use Rattle.acquisition.specs.Rooms.{HasBegun, ForPowers};

    /// Room for one search at a time.
    ///
    /// # Errors
    ///
    /// There is no memory.
    pub fn new(alloc: Global) -> Result<SearchRoom, AllocError> {
        Ok(SearchRoom {
            powers: Vec::with_capacity(alloc, 1)?,
        })
    }

    /// Puts the powers over no period there, whatever the search before left.
    pub(crate) fn begin(&mut self)
        ensures begun { HasBegun self.new }
        ensures added { ForPowers self.new (λ powers. powers.added ≡ 0) }
        ensures powers { (x : ℕ → Sample) (prn long : ℕ) (steps : Steps)
            → ForPowers self.new (AreSoFar x prn long steps) }
    {
        self.powers.clear();
        self.powers.push_reserved(BinPowers::new());
    }
}
