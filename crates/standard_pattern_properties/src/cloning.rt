//! Clones of the keywords.
ghost use Rattle.std.specs.Prelude.{◌≡◌};

use crate::keyword::{GatedKeyword, Neighbours};
use schema_traits::CloneKeyword;
use std::alloc::AllocError;

impl Clone for Neighbours {
    ghost is_clone = { λ beside copy. copy ≡ beside };

    /// Returns a clone of the neighbours.
    ///
    /// # Errors
    ///
    /// Out of memory.
    fn clone(&self) -> Result<Neighbours, AllocError> {
        Ok(Neighbours {
            listed: self.listed.clone()?,
            patterns: self.patterns.clone()?,
        })
    }
}

impl Clone for GatedKeyword {
    ghost is_clone = { λ keyword copy. copy ≡ keyword };

    /// Returns a clone of the keyword.
    ///
    /// # Errors
    ///
    /// Out of memory.
    fn clone(&self) -> Result<GatedKeyword, AllocError> {
        match self {
            GatedKeyword::PatternProperties(patterns) => {
                Ok(GatedKeyword::PatternProperties(patterns.clone()?))
            }
            GatedKeyword::AdditionalProperties(beside) => {
                Ok(GatedKeyword::AdditionalProperties(beside.clone()?))
            }
            GatedKeyword::NoAdditionalProperties(beside) => {
                Ok(GatedKeyword::NoAdditionalProperties(beside.clone()?))
            }
        }
    }
}

impl CloneKeyword for GatedKeyword {
    ghost cloned = { λ keyword copy same. same };
}
