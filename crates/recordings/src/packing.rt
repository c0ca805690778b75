//! Packing by a recipe. Each value has a code, by what is quick for its kind (`ValueCodes`). The
//! codes of a group of a recording's bytes are put together into one byte.

ghost use Rattle.std.specs.Prelude.{◌≡◌, ◌+◌, ◌*◌, ◌/◌, ◌<◌, ◌≤◌, ◌^◌, if◌then◌else◌};
ghost use Rattle.definitions.specs.Samples.{samples_per_byte};
ghost use Rattle.sample_planes.specs.Packings.{packing_of};
ghost use Rattle.recordings.specs.declared.recipe.TheConstants.{MOST_BYTES};
ghost use Rattle.recordings.specs.declared.packing.TheConstants.{MOST_VALUE_BITS};

use crate::byte_codes::ByteCodes;
use crate::fault::PackFault;
use crate::number_codes::NumberCodes;
use crate::recipe::{BYTE_VALUES, MOST_BYTES, Recipe};
use crate::value_codes::ValueCodes;
use crate::value_kind::ValueKind;
use crate::values::{Floats, HighFirst, LowFirst};
use sample_planes::Format;
use std::alloc::AllocError;

/// The most bits of a value.
const MOST_VALUE_BITS: usize = 32;

/// From so many bytes on it pays to make a table of what each is made into.
const LEAST_FOR_TABLE: usize = 2048;

impl Recipe {
    ghost use Rattle.std.specs.Prelude.{ℕ, [], ◌∷◌, length, OnOk, Err};
    ghost use Rattle.recordings.specs.Readings.{AreNumbers};
    ghost use Rattle.definitions.specs.Samples.{sample};
    ghost use Rattle.sample_planes.specs.Packings.{width_of};
    ghost use Rattle.recordings.specs.Recordings.{sample_bits, packing_in};
    ghost use Rattle.recordings.specs.declared.recipe.TheConstants.{BYTE_VALUES};
    ghost use Rattle.recordings.specs.Recordings.{code_of, sample_of};
    ghost use Rattle.recordings.specs.Recordings.{group_of as group_in, IsPacked, IsTable};

    /// Packs the bytes of a recording from its beginning on, at most `MOST_BYTES`, as far as they
    /// fill bytes, in place of what was written.
    ///
    /// # Errors
    ///
    /// There is no memory, or a float is no number.
    ///
    /// # Panics
    ///
    /// Plain Rust panics where there are more than `MOST_BYTES` bytes.
    pub fn pack(&self, bytes: &[u8], written: &mut Vec<u8>) -> Result<(), PackFault>
        requires { length bytes.now ≤ MOST_BYTES }
        ensures packed { OnOk result (IsPacked self.now bytes.now written.new.items) }
        ensures numbers { OnOk result (AreNumbers self.now.kind bytes.now) }
        ensures fault { (result ≡ Err PackFault.NotANumber) → ¬ AreNumbers self.now.kind bytes.now }
    {
        prove!(
            bytes.len() <= MOST_BYTES,
            "Recipe::pack requires bytes.len() <= MOST_BYTES"
        );
        if !self.kind.are_numbers(bytes) {
            return Err(PackFault::NotANumber);
        }
        written.clear();
        if self.group() == 1 && bytes.len() >= LEAST_FOR_TABLE {
            self.pack_by_table(bytes, written)?;
            return Ok(());
        }
        self.pack_by_kind(bytes, written)?;
        Ok(())
    }

    /// Packs values of each kind by codes that are quick for it.
    fn pack_by_kind(&self, bytes: &[u8], written: &mut Vec<u8>) -> Result<(), AllocError>
        requires few { length bytes.now ≤ MOST_BYTES }
        requires empty { written.old.items ≡ [] }
        ensures { OnOk result (IsPacked self.now bytes.now written.new.items) }
    {
        if self.kind.bits() == 8 && bytes.len() >= LEAST_FOR_TABLE {
            return self.pack_with(&ByteCodes::new(self), bytes, written);
        }
        match self.kind {
            ValueKind::I16 => self.pack_with(&NumberCodes::new(self, LowFirst), bytes, written),
            ValueKind::I16Be => self.pack_with(&NumberCodes::new(self, HighFirst), bytes, written),
            ValueKind::F32 => self.pack_with(&NumberCodes::new(self, Floats), bytes, written),
            _ => self.pack_with(self, bytes, written),
        }
    }

    /// Packs by the codes of values. Each format has loops of its own.
    fn pack_with<C: ValueCodes>(
        &self,
        codes: &C,
        bytes: &[u8],
        written: &mut Vec<u8>,
    ) -> Result<(), AllocError>
        requires recipe { C.recipe codes.now ≡ self.now }
        requires few { length bytes.now ≤ MOST_BYTES }
        requires empty { written.old.items ≡ [] }
        ensures { OnOk result (IsPacked self.now bytes.now written.new.items) }
    {
        match self.format {
            Format::Real1 => self.pack_as(codes, Format::Real1, bytes, written),
            Format::Real2 => self.pack_as(codes, Format::Real2, bytes, written),
            Format::Iq1 => self.pack_as(codes, Format::Iq1, bytes, written),
            Format::Iq2 => self.pack_as(codes, Format::Iq2, bytes, written),
        }
    }

    /// Packs in its own format, which the caller knows. Pairs have loops of their own.
    #[inline(always)]
    fn pack_as<C: ValueCodes>(
        &self,
        codes: &C,
        format: Format,
        bytes: &[u8],
        written: &mut Vec<u8>,
    ) -> Result<(), AllocError>
        requires recipe { C.recipe codes.now ≡ self.now }
        requires format { packing_of format ≡ packing_in self.now }
        requires few { length bytes.now ≤ MOST_BYTES }
        requires empty { written.old.items ≡ [] }
        ensures { OnOk result (IsPacked self.now bytes.now written.new.items) }
    {
        if self.is_paired {
            self.pack_groups(codes, format, true, bytes, written)
        } else {
            self.pack_groups(codes, format, false, bytes, written)
        }
    }

    /// Packs group by group, each into a byte, where the caller knows the format and whether values
    /// are pairs.
    #[inline(always)]
    fn pack_groups<C: ValueCodes>(
        &self,
        codes: &C,
        format: Format,
        is_paired: bool,
        bytes: &[u8],
        written: &mut Vec<u8>,
    ) -> Result<(), AllocError>
        requires recipe { C.recipe codes.now ≡ self.now }
        requires format { packing_of format ≡ packing_in self.now }
        requires paired { is_paired ≡ self.now.is_paired }
        requires few { length bytes.now ≤ MOST_BYTES }
        requires empty { written.old.items ≡ [] }
        ensures { OnOk result (IsPacked self.now bytes.now written.new.items) }
    {
        let group = group_of(format, is_paired, codes.value_bits());
        for i in 0..bytes.len() / group {
            let part = &bytes[group * i..group * i + group];
            written.push(self.byte(codes, format, is_paired, part))?;
        }
        Ok(())
    }

    /// Packs bytes of which each is made into one.
    fn pack_by_table(&self, bytes: &[u8], written: &mut Vec<u8>) -> Result<(), AllocError>
        requires alone { group_in self.now ≡ 1 }
        requires empty { written.old.items ≡ [] }
        ensures { OnOk result (IsPacked self.now bytes.now written.new.items) }
    {
        let table = self.table();
        for i in 0..bytes.len() {
            written.push(table[bytes[i] as usize])?;
        }
        Ok(())
    }

    /// What each byte is made into, where it is made into one.
    fn table(&self) -> [u8; BYTE_VALUES]
        requires alone { group_in self.now ≡ 1 }
        ensures { IsTable self.now BYTE_VALUES result }
    {
        let mut table = [0; BYTE_VALUES];
        for byte in 0..BYTE_VALUES {
            table[byte] = self.byte(self, self.format, self.is_paired, &[byte as u8]);
        }
        table
    }

    /// The byte of the first samples, where the caller knows the format and whether values are
    /// pairs.
    #[inline(always)]
    fn byte<C: ValueCodes>(&self, codes: &C, format: Format, is_paired: bool, bytes: &[u8]) -> u8
        requires recipe { C.recipe codes.now ≡ self.now }
        requires format { packing_of format ≡ packing_in self.now }
        requires paired { is_paired ≡ self.now.is_paired }
        requires few { length bytes.now ≤ MOST_BYTES }
        requires within { sample_bits self.now * samples_per_byte (packing_in self.now)
            ≤ 8 * length bytes.now }
        ensures { (k : ℕ) → k < samples_per_byte (packing_in self.now)
            → sample (packing_in self.now) (result ∷ []) k ≡ sample_of self.now bytes.now k }
    {
        let per_byte = format.per_byte();
        let width = 8 / per_byte;
        let mut byte = 0;
        for n in 0..per_byte {
            byte = (byte << width) | self.bits(codes, format, is_paired, bytes, n);
        }
        byte
    }

    /// The bits of sample `n` of some bytes, as a number: the sample's first bit is the highest.
    #[inline(always)]
    fn bits<C: ValueCodes>(
        &self,
        codes: &C,
        format: Format,
        is_paired: bool,
        bytes: &[u8],
        n: usize,
    ) -> u8
        requires recipe { C.recipe codes.now ≡ self.now }
        requires format { packing_of format ≡ packing_in self.now }
        requires paired { is_paired ≡ self.now.is_paired }
        requires few { length bytes.now ≤ MOST_BYTES }
        requires within { sample_bits self.now * (n + 1) ≤ 8 * length bytes.now }
        ensures value { result ≡ code_of self.now bytes.now n }
        ensures few { result < 2 ^ width_of (packing_in self.now) }
    {
        let place = value_number(is_paired, n, self.in_phase.place);
        let in_phase = codes.code(format, false, bytes, place);
        if format.has_quadrature() {
            let place = value_number(is_paired, n, self.quadrature.place);
            let quadrature = codes.code(format, true, bytes, place);
            if format.has_sizes() {
                4 * in_phase + quadrature
            } else {
                2 * in_phase + quadrature
            }
        } else {
            in_phase
        }
    }
}

/// How many bytes of a recording each written byte is made of, by how many bits a value has.
#[inline(always)]
fn group_of(format: Format, is_paired: bool, value_bits: usize) -> usize
    requires { value_bits ≤ MOST_VALUE_BITS }
    ensures { result ≡ samples_per_byte (packing_of format)
        * ((if is_paired then 2 else 1) * value_bits) / 8 }
{
    let parts = if is_paired { 2 } else { 1 };
    format.per_byte() * (parts * value_bits) / 8
}

/// The number of a value of sample `n`, of which there are at most `8 * MOST_BYTES`, by its place
/// in it.
#[inline(always)]
fn value_number(is_paired: bool, n: usize, place: usize) -> usize
    requires few { n < 8 * MOST_BYTES }
    requires place { place < (if is_paired then 2 else 1) }
    ensures { result ≡ (if is_paired then 2 else 1) * n + place }
{
    // Of a place that is below two, the compiler knows that the value lies in its group.
    if is_paired { 2 * n + place.min(1) } else { n }
}
