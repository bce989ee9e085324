//! Clones of the keywords.
ghost use Rattle.std.specs.Prelude.{◌≡◌};

use crate::applicator::StandardApplicator;
use keyword_authoring::Planned;
use schema_traits::CloneKeyword;
use std::alloc::AllocError;

impl Clone for StandardApplicator {
    ghost is_clone = { λ keyword copy. copy ≡ keyword };

    /// Returns a clone of the keyword.
    ///
    /// # Errors
    ///
    /// Out of memory.
    fn clone(&self) -> Result<StandardApplicator, AllocError> {
        match self {
            StandardApplicator::Contains(planned) => {
                let keyword = planned.keyword;
                Ok(StandardApplicator::Contains(Planned { keyword }))
            }
            StandardApplicator::DependentSchemas(names) => {
                Ok(StandardApplicator::DependentSchemas(names.clone()?))
            }
            StandardApplicator::Dependencies(wants, names) => {
                let wants = wants.clone()?;
                Ok(StandardApplicator::Dependencies(wants, names.clone()?))
            }
            StandardApplicator::ListedItems(count) => Ok(StandardApplicator::ListedItems(*count)),
            StandardApplicator::LaterItems(before) => Ok(StandardApplicator::LaterItems(*before)),
            StandardApplicator::NoLaterItems(keyword) => {
                Ok(StandardApplicator::NoLaterItems(*keyword))
            }
        }
    }
}

impl CloneKeyword for StandardApplicator {
    ghost cloned = { λ keyword copy same. same };
}
