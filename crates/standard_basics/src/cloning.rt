//! Clones of the basic keywords.
ghost use Rattle.std.specs.Prelude.{◌≡◌};
ghost use Rattle.standard_basics.specs.Shapes.{shape_of};

use crate::keyword::BasicKeyword;
use schema_traits::CloneKeyword;
use std::alloc::AllocError;

impl Clone for BasicKeyword {
    ghost is_clone = { λ keyword copy. shape_of copy ≡ shape_of keyword };

    /// Returns a clone of the keyword.
    ///
    /// # Errors
    ///
    /// Out of memory.
    fn clone(&self) -> Result<BasicKeyword, AllocError> {
        match self {
            BasicKeyword::Type(name) => Ok(BasicKeyword::Type(*name)),
            BasicKeyword::Types(names) => Ok(BasicKeyword::Types(names.clone()?)),
            BasicKeyword::Required(names) => Ok(BasicKeyword::Required(names.clone()?)),
            BasicKeyword::Properties(names) => Ok(BasicKeyword::Properties(names.clone()?)),
            BasicKeyword::Count(kind, limit) => Ok(BasicKeyword::Count(*kind, *limit)),
            BasicKeyword::Pattern(pattern) => Ok(BasicKeyword::Pattern(pattern.clone()?)),
            BasicKeyword::AllOf(count) => Ok(BasicKeyword::AllOf(*count)),
            BasicKeyword::PrefixItems(count) => Ok(BasicKeyword::PrefixItems(*count)),
            BasicKeyword::Items(before) => Ok(BasicKeyword::Items(*before)),
            BasicKeyword::AnyOf(count) => Ok(BasicKeyword::AnyOf(*count)),
            BasicKeyword::OneOf(count) => Ok(BasicKeyword::OneOf(*count)),
            BasicKeyword::If(accepted, refused) => Ok(BasicKeyword::If(*accepted, *refused)),
            BasicKeyword::PropertyNames => Ok(BasicKeyword::PropertyNames),
            BasicKeyword::Not(schema) => Ok(BasicKeyword::Not(schema.clone()?)),
        }
    }
}

impl CloneKeyword for BasicKeyword {
    ghost cloned = { λ keyword copy same. same };
}
