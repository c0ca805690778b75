//! The number of a field in a subframe.

ghost use Rattle.std.specs.Prelude.{◌≡◌};
ghost use Rattle.definitions.specs.Fields.{field_of, value_of};
ghost use Rattle.subframes.specs.Entries.{entry_of};

use crate::fields::Field;
use frame_sync::Subframe;

/// The number that the bits of a field write, whatever the subframe's ID and SV ID, or `None` where
/// a word that holds a part of it is missing. It is from -2^31 to 2^32 - 1, in units of two to the
/// power of the field's exponent (IS-GPS-200, section 20.3.3).
#[must_use]
pub fn field(subframe: &Subframe, field: Field) -> Option<i64>
    ensures { result ≡ field_of subframe.now (entry_of field) }
{
    let layout = field.layout();
    if layout.is_there(subframe) {
        Some(layout.value(subframe))
    } else {
        None
    }
}

/// The number that the bits of a field write, missing words read as 0.
pub(crate) fn value(subframe: &Subframe, field: Field) -> i64
    ensures { result ≡ value_of subframe.now (entry_of field) }
{
    field.layout().value(subframe)
}
