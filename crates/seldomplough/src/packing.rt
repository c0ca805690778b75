//! Packed samples of a recording's values.

ghost use Rattle.std.specs.Prelude.{◌≡◌, ◌≢◌, ◌↔◌, ◌⊎◌, [], IfOk, OnErr, Err};
ghost use Rattle.recordings.specs.declared.value_kind.ValueKind.TheVariants.{I8, F32};
ghost use Rattle.seldomplough.specs.declared.packing_fault.PackingFault.TheVariants.{NoMemory};
ghost use Rattle.seldomplough.specs.declared.packing_fault.PackingFault.TheVariants.{NotANumber};
ghost use Rattle.seldomplough.specs.declared.packing_fault.PackingFault.TheVariants.{OtherKind};

use crate::packing_fault::PackingFault;
use crate::values::{write_f32, write_i8};
use recordings::{FLOAT_BYTES, MOST_PIECE, Packer, Recipe, ValueKind};
use std::alloc::{AllocError, Global};
use std::fmt::{self, Debug, Formatter, Write};

/// Packs a recording's values as a `Receiver` takes them, piece by piece, however they are cut. It
/// holds the values that don't fill a byte yet.
#[derive(Drop)]
pub struct Packing {
    packer: Packer,
    /// The bytes of the values that came last.
    piece: Vec<u8>,
    /// What was packed when these came.
    packed: Vec<u8>,
}

impl Packing {
    ghost use Rattle.seldomplough.specs.Packings.{StandsFor, TakesFront, recipe_in, packed_in};
    ghost use Rattle.seldomplough.specs.Packings.{FindsNoNumber, HasNan};
    ghost use Rattle.seldomplough.specs.Packings.{kind_in, bytes_of_i8, bytes_of_f32};

    /// Packs by a recipe, which a `Choice` gives. It takes its memory at once.
    ///
    /// # Errors
    ///
    /// There is no memory.
    pub fn open(alloc: Global, recipe: Recipe) -> Result<Packing, AllocError>
        ensures recipe { IfOk result (λ packing. recipe_in packing ≡ recipe) }
        ensures stands { IfOk result (λ packing. StandsFor [] [] packing) }
        ensures nothing { IfOk result (λ packing. packed_in packing ≡ []) }
    {
        Ok(Packing {
            packer: Packer::new(alloc, recipe)?,
            piece: Vec::with_capacity(alloc, MOST_PIECE)?,
            packed: Vec::with_capacity(alloc, MOST_PIECE)?,
        })
    }

    /// The bytes that the values that were taken last filled. After an error there are none; but
    /// values for a recording of another kind change nothing.
    #[must_use]
    pub fn packed(&self) -> &[u8]
        ensures { result.now ≡ packed_in self.now }
    {
        self.packed.as_slice()
    }

    /// Takes bytes of the recording from the front of some, and gives those after them. It takes
    /// all of them, or `MOST_PIECE`.
    ///
    /// # Errors
    ///
    /// There is no memory, or a float is no number. Then nothing is packed, and values that it held
    /// may be gone.
    pub fn take<'b>(&mut self, bytes: &'b [u8]) -> Result<&'b [u8], PackingFault>
        ensures taken { IfOk result (λ rest. TakesFront (λ taken. taken) bytes.now rest.now
            self.old self.new) }
        ensures no_number { (result ≡ Err NotANumber)
            → FindsNoNumber (λ taken. taken) bytes.now self.old }
        ensures kind { result ≢ Err OtherKind }
        ensures nothing { OnErr result (packed_in self.new ≡ []) }
        ensures recipe { recipe_in self.new ≡ recipe_in self.old }
    {
        let (front, rest) = bytes.split_at(bytes.len().min(MOST_PIECE));
        self.packer.take(front, &mut self.packed)?;
        Ok(rest)
    }

    /// Takes signed bytes as `take` does the bytes of a recording of kind `ValueKind::I8`.
    ///
    /// # Errors
    ///
    /// The recording has values of another kind, and nothing has changed. Or there is no memory:
    /// then nothing is packed, and values that it held may be gone.
    pub fn take_i8<'v>(&mut self, values: &'v [i8]) -> Result<&'v [i8], PackingFault>
        ensures taken { IfOk result (λ rest. TakesFront bytes_of_i8 values.now rest.now
            self.old self.new) }
        ensures kind { (result ≡ Err OtherKind) ↔ (kind_in self.old ≢ I8) }
        ensures other { (result ≡ Err OtherKind) → self.new ≡ self.old }
        ensures nothing { (result ≡ Err NoMemory) → packed_in self.new ≡ [] }
        ensures numbers { result ≢ Err NotANumber }
        ensures recipe { recipe_in self.new ≡ recipe_in self.old }
    {
        if self.packer.kind() != ValueKind::I8 {
            return Err(PackingFault::OtherKind);
        }
        self.packed.clear();
        let (front, rest) = values.split_at(values.len().min(MOST_PIECE));
        write_i8(front, &mut self.piece)?;
        self.packer.take(&self.piece, &mut self.packed)?;
        Ok(rest)
    }

    /// Takes floats as `take` does the bytes of a recording of kind `ValueKind::F32`.
    ///
    /// # Errors
    ///
    /// The recording has values of another kind, and nothing has changed. Or a float is no number,
    /// or there is no memory: then nothing is packed, and values that it held may be gone.
    pub fn take_f32<'v>(&mut self, values: &'v [f32]) -> Result<&'v [f32], PackingFault>
        ensures taken { IfOk result (λ rest. TakesFront bytes_of_f32 values.now rest.now
            self.old self.new) }
        ensures kind { (result ≡ Err OtherKind) ↔ (kind_in self.old ≢ F32) }
        ensures other { (result ≡ Err OtherKind) → self.new ≡ self.old }
        ensures nothing { (result ≡ Err NoMemory) ⊎ (result ≡ Err NotANumber)
            → packed_in self.new ≡ [] }
        ensures no_number { (result ≡ Err NotANumber)
            → HasNan values.now ⊎ FindsNoNumber bytes_of_f32 values.now self.old }
        ensures recipe { recipe_in self.new ≡ recipe_in self.old }
    {
        if self.packer.kind() != ValueKind::F32 {
            return Err(PackingFault::OtherKind);
        }
        self.packed.clear();
        let (front, rest) = values.split_at(values.len().min(MOST_PIECE / FLOAT_BYTES));
        write_f32(front, &mut self.piece)?;
        self.packer.take(&self.piece, &mut self.packed)?;
        Ok(rest)
    }
}

impl Debug for Packing {
    /// How many bytes the last values filled.
    fn fmt<W: Write>(&self, f: &mut Formatter<W>) -> fmt::Result {
        write!(f, "Packing {{ packed: {}, .. }}", self.packed.len())
    }
}
