//! The data bits of a channel, found push by push.

ghost use Rattle.std.specs.Prelude.{◌≡◌, ◌≤◌, unsigned_abs, ℤ, List, [], ◌∷◌, ◌++◌};
ghost use Rattle.bit_sync.specs.declared.bit_sum.TheConstants.{MOST_PUSH};

use crate::bit_sum::{BitSum, MOST_PUSH};
use crate::edge_search::EdgeSearch;

/// What comes with a prompt sum that is pushed.
#[derive(Debug, Clone, Copy, PartialEq, Eq)]
pub enum BitNews {
    /// There is neither an edge nor a whole bit.
    Nothing,
    /// The push is the first of bit 0. It comes once, before all bits.
    Edge,
    /// The push is the last of a bit's 20. `true` stands for 1, where they sum up to less than
    /// zero.
    Bit(bool),
}

#[derive(Debug, Drop)]
enum SyncState {
    Searching(EdgeSearch),
    Summing(BitSum),
}

/// Finds the data bits among the prompt sums of a channel that is locked, one sum (a code period,
/// 1 ms) a push.
///
/// How the edge is found is this project's own: a change is a push whose sign isn't that of the
/// push before it, and the edge is a change that is the sixteenth at its place modulo 20. Where two
/// places have four changes or more, all are counted anew.
#[derive(Debug, Drop)]
pub struct BitSync {
    stage: SyncState,
}

impl BitSync {
    ghost use Rattle.definitions.specs.BitEdge.{has_edge};
    ghost use Rattle.bit_sync.specs.Standing.{StandsFor};
    ghost use Rattle.bit_sync.specs.News.{Emits};

    /// The state before the first push.
    #[must_use]
    pub fn new() -> Self
        ensures { StandsFor [] result }
    {
        BitSync {
            stage: SyncState::Searching(EdgeSearch::new()),
        }
    }

    /// Takes the next prompt sum in phase, at most `MOST_PUSH` in size. There may be any number of
    /// pushes.
    ///
    /// # Panics
    ///
    /// Plain Rust panics where the sum is larger.
    pub fn push(&mut self, ip: i32) -> BitNews
        requires { unsigned_abs ip ≤ MOST_PUSH }
        ensures stands { (pushes : List ℤ) → StandsFor pushes self.old
            → StandsFor (pushes ++ ip ∷ []) self.new }
        ensures tells { (pushes : List ℤ) → StandsFor pushes self.old
            → Emits pushes (pushes ++ ip ∷ []) result }
    {
        prove!(
            ip.unsigned_abs() <= MOST_PUSH,
            "BitSync::push requires |ip| <= MOST_PUSH"
        );
        match &mut self.stage {
            SyncState::Searching(search) => {
                if search.push(ip) {
                    self.stage = SyncState::Summing(BitSum::begun_with(ip));
                    BitNews::Edge
                } else {
                    BitNews::Nothing
                }
            }
            SyncState::Summing(sum) => match sum.push(ip) {
                Some(bit) => BitNews::Bit(bit),
                None => BitNews::Nothing,
            },
        }
    }

    /// Whether the edge is among the pushes.
    #[must_use]
    pub fn has_edge(&self) -> bool
        ensures { (pushes : List ℤ) → StandsFor pushes self.now → result ≡ has_edge pushes }
    {
        match &self.stage {
            SyncState::Searching(_) => false,
            SyncState::Summing(_) => true,
        }
    }
}

impl Default for BitSync {
    ghost use Rattle.bit_sync.specs.Standing.{StandsFor};

    /// The state before the first push.
    fn default() -> BitSync
        ensures { StandsFor [] result }
    {
        BitSync::new()
    }
}
