//! Packing piece by piece.

ghost use Rattle.std.specs.Prelude.{◌≡◌, ◌<◌, ◌≤◌, ◌*◌, ◌/◌, ◌%◌, ◌↔◌, true, length, drop};
ghost use Rattle.recordings.specs.declared.recipe.TheConstants.{MOST_GROUP};

use crate::fault::PackFault;
use crate::recipe::{MOST_GROUP, Recipe};
use crate::value_kind::ValueKind;
use std::alloc::{AllocError, Global};

/// The most bytes of a piece.
pub const MOST_PIECE: usize = 1 << 16;

/// Packs a recording that comes in pieces, and holds the bytes that don't fill a byte yet.
#[derive(Drop)]
pub struct Packer {
    recipe: Recipe,
    held: Vec<u8>,
    ghost few: { length held.items < MOST_GROUP },
}

impl Packer {
    ghost use Rattle.std.specs.Prelude.{ℕ, List, [], ◌++◌, IfOk, OnOk, OnErr, Err};
    ghost use Rattle.recordings.specs.Readings.{AreNumbers};
    ghost use Rattle.recordings.specs.Packers.{StandsFor, recipe_in, held_in};
    ghost use Rattle.recordings.specs.Recordings.{sample_bits};
    ghost use Rattle.recordings.specs.declared.packer.TheConstants.{MOST_PIECE};

    /// The packer of a recording of which nothing came yet. It takes its memory at once. An error
    /// is memory that it was refused.
    pub fn new(alloc: Global, recipe: Recipe) -> Result<Packer, AllocError>
        ensures recipe { IfOk result (λ packer. recipe_in packer ≡ recipe) }
        ensures stands { IfOk result (λ packer. StandsFor [] [] packer) }
    {
        let held = Vec::with_capacity(alloc, MOST_PIECE + MOST_GROUP)?;
        Ok(Packer { recipe, held })
    }

    /// The kind of the recording's values.
    pub fn kind(&self) -> ValueKind
        ensures { result ≡ (recipe_in self.now).kind }
    {
        self.recipe.kind
    }

    /// Takes the next piece of the recording, and writes the bytes that this fills, in place of
    /// what was written. An error is memory that it was refused, or a float that is no number: then
    /// nothing is written, and what it held may be gone.
    pub fn take(&mut self, piece: &[u8], written: &mut Vec<u8>) -> Result<(), PackFault>
        requires { length piece.now ≤ MOST_PIECE }
        ensures recipe { recipe_in self.new ≡ recipe_in self.old }
        ensures stands { OnOk result ((bytes before : List ℕ) → StandsFor bytes before self.old
            → StandsFor (bytes ++ piece.now) (before ++ written.new.items) self.new) }
        ensures numbers { OnOk result
            (AreNumbers (recipe_in self.old).kind (held_in self.old ++ piece.now)) }
        ensures fault { (result ≡ Err PackFault.NotANumber)
            → ¬ AreNumbers (recipe_in self.old).kind (held_in self.old ++ piece.now) }
        ensures nothing { OnErr result (written.new.items ≡ []) }
    {
        prove!(
            piece.len() <= MOST_PIECE,
            "Packer::take requires piece.len() <= MOST_PIECE"
        );
        written.clear();
        self.held.extend_from_slice(piece)?;
        match self.recipe.pack(&self.held, written) {
            Ok(()) => {
                drop_front(&mut self.held, written.len() * self.recipe.group());
                Ok(())
            }
            Err(error) => {
                self.held.clear();
                written.clear();
                Err(error)
            }
        }
    }

    /// How many samples at the end so far don't fill a byte.
    pub fn samples_held(&self) -> usize
        ensures { result ≡ 8 * length (held_in self.now) / sample_bits (recipe_in self.now) }
    {
        8 * self.held.len() / self.recipe.sample_bits()
    }

    /// Whether the bytes so far end inside a sample.
    pub fn ends_inside(&self) -> bool
        ensures { (result ≡ true)
            ↔ (0 < 8 * length (held_in self.now) % sample_bits (recipe_in self.now)) }
    {
        8 * self.held.len() % self.recipe.sample_bits() > 0
    }
}

/// Takes bytes away from the front.
fn drop_front(bytes: &mut Vec<u8>, count: usize)
    requires { count ≤ length bytes.old.items }
    ensures { bytes.new.items ≡ drop count bytes.old.items }
{
    let left = bytes.len() - count;
    bytes.copy_within(count.., 0);
    bytes.truncate(left);
}
