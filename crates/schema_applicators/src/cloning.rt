//! Clones of the keywords.
ghost use Rattle.std.specs.Prelude.{◌≡◌};
ghost use Rattle.schema_applicators.specs.Shapes.{shape_of};

use crate::applicator::Applicator;
use schema_traits::CloneKeyword;
use std::alloc::AllocError;

impl Clone for Applicator {
    ghost is_clone = { λ keyword copy. shape_of copy ≡ shape_of keyword };

    /// Returns a clone of the keyword.
    ///
    /// # Errors
    ///
    /// Out of memory.
    fn clone(&self) -> Result<Applicator, AllocError> {
        match self {
            Applicator::AllOf(count) => Ok(Applicator::AllOf(*count)),
            Applicator::AnyOf(count) => Ok(Applicator::AnyOf(*count)),
            Applicator::OneOf(count) => Ok(Applicator::OneOf(*count)),
            Applicator::Not(schema) => Ok(Applicator::Not(schema.clone()?)),
            Applicator::If(accepted, refused) => Ok(Applicator::If(*accepted, *refused)),
        }
    }
}

impl CloneKeyword for Applicator {
    ghost cloned = { λ keyword copy same. same };
}
