//! What is asked of a recording.

ghost use Rattle.std.specs.Prelude.{◌≡◌, ◌<◌, ◌↔◌, Err, IfOk, true, false, if◌then◌else◌};

use crate::part::PartRecipe;
use crate::recipe::Recipe;
use crate::value_kind::ValueKind;
use sample_planes::Format;
use thiserror::Error;

/// What a recording is, and what is asked of it. Centres and threshold are twice their values, as
/// readings are, but for floats.
#[derive(Clone, Copy, Debug, PartialEq, Eq)]
pub struct Choice {
    /// The kind of the recording's values.
    pub kind: ValueKind,
    /// Whether the recording's values are pairs, in phase and in quadrature.
    pub is_paired: bool,
    /// The packing to write.
    pub format: Format,
    /// A value farther from its centre than this has the size 3.
    pub threshold: u32,
    /// The centre of the part in phase.
    pub centre: i32,
    /// The centre of the part in quadrature.
    pub centre_q: i32,
    /// Whether the part in quadrature stands first.
    pub is_swapped: bool,
    /// Whether the sign of the part in quadrature is turned.
    pub is_conjugate: bool,
    /// Whether real samples are made of the part in quadrature.
    pub takes_quadrature: bool,
}

/// What is asked of a recording can't be had.
#[derive(Clone, Copy, Debug, PartialEq, Eq, Error)]
pub enum ChoiceFault {
    /// A complex packing, or an option for pairs, is asked of real values.
    #[error("real values have no part in quadrature")]
    Pairs,
    /// A packing with two bits a part is asked of values of one bit.
    #[error("values of one bit have no sizes")]
    Sizes,
    /// Only one part is asked for, but the packing has both.
    #[error("one part makes real samples alone")]
    Part,
}

impl Choice {
    ghost use Rattle.std.specs.Prelude.{None, Some};
    ghost use Rattle.recordings.specs.Choices.{LacksPairs, IsWithoutSizes, IsOfOnePart, Makes};
    ghost use Rattle.recordings.specs.Choices.{IsInPhase, IsQuadrature, CanBeMade};
    ghost use Rattle.recordings.specs.Choices.{NeedsPairs};

    /// The recipe that makes what is asked.
    ///
    /// # Errors
    ///
    /// There is none, for the reason that the fault names.
    pub fn recipe(&self) -> Result<Recipe, ChoiceFault>
        ensures makes { IfOk result (λ recipe. Makes self.now recipe) }
        ensures pairs { (result ≡ Err ChoiceFault.Pairs) ↔ LacksPairs self.now }
        ensures sizes { (result ≡ Err ChoiceFault.Sizes) ↔ IsWithoutSizes self.now }
        ensures part { (result ≡ Err ChoiceFault.Part) ↔ IsOfOnePart self.now }
    {
        match self.fault() {
            Some(fault) => Err(fault),
            None => Ok(self.make()),
        }
    }

    /// Why there is no recipe for what is asked.
    fn fault(&self) -> Option<ChoiceFault>
        ensures none { result ≡ None → CanBeMade self.now }
        ensures pairs { (result ≡ Some ChoiceFault.Pairs) ↔ LacksPairs self.now }
        ensures sizes { (result ≡ Some ChoiceFault.Sizes) ↔ IsWithoutSizes self.now }
        ensures part { (result ≡ Some ChoiceFault.Part) ↔ IsOfOnePart self.now }
    {
        if !self.is_paired && self.needs_pairs() {
            Some(ChoiceFault::Pairs)
        } else if self.format.has_sizes() && self.kind.bits() == 1 {
            Some(ChoiceFault::Sizes)
        } else if self.format.has_quadrature() && self.takes_quadrature {
            Some(ChoiceFault::Part)
        } else {
            None
        }
    }

    /// Whether something is asked that only pairs have.
    fn needs_pairs(&self) -> bool
        ensures { (result ≡ true) ↔ NeedsPairs self.now }
    {
        self.format.has_quadrature()
            || self.is_swapped
            || self.is_conjugate
            || self.takes_quadrature
    }

    /// The recipe of a choice that can be made.
    fn make(&self) -> Recipe
        requires { CanBeMade self.now }
        ensures { Makes self.now result }
    {
        Recipe {
            kind: self.kind,
            is_paired: self.is_paired,
            format: self.format,
            threshold: u64::from(self.threshold),
            in_phase: self.first_part(),
            quadrature: self.second_part(),
        }
    }

    /// The part that real samples are made of, or that in phase.
    fn first_part(&self) -> PartRecipe
        requires { CanBeMade self.now }
        ensures there { result.place < (if self.now.is_paired then 2 else 1) }
        ensures in_phase { self.now.takes_quadrature ≡ false → IsInPhase self.now result }
        ensures quadrature { self.now.takes_quadrature ≡ true → IsQuadrature self.now result }
    {
        if self.takes_quadrature {
            self.quadrature()
        } else {
            self.in_phase()
        }
    }

    /// The part in quadrature, where there is one.
    fn second_part(&self) -> PartRecipe
        requires { CanBeMade self.now }
        ensures there { result.place < (if self.now.is_paired then 2 else 1) }
        ensures quadrature { self.now.is_paired ≡ true → IsQuadrature self.now result }
    {
        if self.is_paired {
            self.quadrature()
        } else {
            self.in_phase()
        }
    }

    /// The part in phase.
    fn in_phase(&self) -> PartRecipe
        ensures { IsInPhase self.now result }
    {
        PartRecipe {
            place: if self.is_swapped { 1 } else { 0 },
            centre: i64::from(self.centre),
            is_turned: false,
        }
    }

    /// The part in quadrature.
    fn quadrature(&self) -> PartRecipe
        ensures { IsQuadrature self.now result }
    {
        PartRecipe {
            place: if self.is_swapped { 0 } else { 1 },
            centre: i64::from(self.centre_q),
            is_turned: self.is_conjugate,
        }
    }
}
