//! Clones of the assertions.
ghost use Rattle.std.specs.Prelude.{◌≡◌};

use crate::assertion::Assertion;
use keyword_authoring::CloneTelling;
use std::alloc::AllocError;

impl Clone for Assertion {
    ghost is_clone = { λ assertion copy. copy ≡ assertion };

    /// Returns a clone of the assertion.
    ///
    /// # Errors
    ///
    /// Out of memory.
    fn clone(&self) -> Result<Assertion, AllocError> {
        match self {
            Assertion::Type(integers, name) => Ok(Assertion::Type(*integers, *name)),
            Assertion::Types(integers, types) => Ok(Assertion::Types(*integers, types.clone()?)),
            Assertion::Const(constant) => Ok(Assertion::Const(constant.clone()?)),
            Assertion::Enum(values) => Ok(Assertion::Enum(values.clone()?)),
            Assertion::Limit(kind, limit) => Ok(Assertion::Limit(*kind, limit.clone()?)),
            Assertion::MultipleOf(divisor) => Ok(Assertion::MultipleOf(divisor.clone()?)),
            Assertion::Size(kind, limit) => Ok(Assertion::Size(*kind, *limit)),
            Assertion::Count(kind, limit) => Ok(Assertion::Count(*kind, *limit)),
            Assertion::UniqueItems => Ok(Assertion::UniqueItems),
            Assertion::DependentRequired(dependents) => {
                Ok(Assertion::DependentRequired(dependents.clone()?))
            }
        }
    }
}

impl CloneTelling for Assertion {
    ghost cloned = { λ assertion copy same. same };
}
