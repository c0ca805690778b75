//! Values as the bytes of a recording.

ghost use Rattle.std.specs.Prelude.{◌≡◌, ◌≢◌, ◌*◌, length, OnOk, Err};
ghost use Rattle.seldomplough.specs.Packings.{bytes_of_i8, bytes_of_f32, HasNan};
ghost use Rattle.seldomplough.specs.declared.packing_fault.PackingFault.TheVariants.{NotANumber};
ghost use Rattle.seldomplough.specs.declared.packing_fault.PackingFault.TheVariants.{OtherKind};

use crate::packing_fault::PackingFault;
use std::alloc::AllocError;

/// Writes signed bytes as a recording has them, in place of what was written. An error is memory
/// that it was refused.
pub fn write_i8(values: &[i8], written: &mut Vec<u8>) -> Result<(), AllocError>
    ensures { OnOk result (written.new.items ≡ bytes_of_i8 values.now) }
{
    written.clear();
    for value in values {
        written.extend_from_slice(&value.to_le_bytes())?;
    }
    Ok(())
}

/// Writes floats as a recording has them, the low byte first, in place of what was written. An
/// error is memory that it was refused, or a float that is no number.
pub fn write_f32(values: &[f32], written: &mut Vec<u8>) -> Result<(), PackingFault>
    ensures bytes { OnOk result (written.new.items ≡ bytes_of_f32 values.now) }
    ensures nan { (result ≡ Err NotANumber) → HasNan values.now }
    ensures kind { result ≢ Err OtherKind }
    ensures four_each { OnOk result (length written.new.items ≡ 4 * length values.now) }
{
    written.clear();
    for value in values {
        if value.is_nan() {
            return Err(PackingFault::NotANumber);
        }
        let four = value.to_le_bytes();
        written.extend_from_slice(&four)?;
    }
    Ok(())
}
