//! Recordings as people have them, packed as the receiver reads them.
//!
//! A `Choice` says what a recording is and what is asked of it, and gives the `Recipe` that makes
//! it. A `Packer` takes the recording piece by piece: what it writes is proved to be the packing of
//! all that came, however it was cut, by the definition that the receiver reads by. A `Stretch`
//! says which bytes are wanted, and `Recipe::measure` shows what the values are like: of that only
//! the number of samples is proved.
//!
//!     use recordings::{Choice, Packer, Stretch, ValueKind};
//!     use sample_planes::Format;
//!
//!     // Bytes without a sign around 127.5, as two bits each: those farther off than 60 are large.
//!     let choice = Choice {
//!         kind: ValueKind::U8,
//!         is_paired: false,
//!         format: Format::Real2,
//!         threshold: 120,
//!         centre: 255,
//!         centre_q: 255,
//!         is_swapped: false,
//!         is_conjugate: false,
//!         takes_quadrature: false,
//!     };
//!     let mut packer = Packer::new(rt.alloc(), choice.recipe()?)?;
//!     let mut written = Vec::new(rt.alloc());
//!     // All but the first two bytes, and at most a million.
//!     let mut stretch = Stretch::new(2, 1_000_000);
//!     packer.take(stretch.part(&[0, 0, 120, 140, 200, 30]), &mut written)?;
#![tactic(auto)]

mod byte_codes;
mod choice;
mod fault;
mod measure;
mod number_codes;
mod numbers;
mod packer;
mod packing;
mod part;
mod recipe;
mod stretch;
mod value_codes;
mod value_kind;
mod values;

pub use choice::{Choice, ChoiceFault};
pub use fault::PackFault;
pub use measure::Measure;
pub use numbers::{FLOAT_BYTES, INFINITY, READING_LIMIT};
pub use packer::{MOST_PIECE, Packer};
pub use part::PartRecipe;
pub use recipe::{MOST_BYTES, MOST_GROUP, MOST_SAMPLE_BITS, Recipe};
pub use stretch::Stretch;
pub use value_kind::ValueKind;
