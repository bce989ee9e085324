//! Keywords that can be cloned.
ghost use Rattle.std.specs.Prelude.{◌≡◌};

use crate::keyword::Validate;

/// A keyword that can be cloned.
///
/// A clone has the shape of its source, so it returns the same answers.
pub trait CloneKeyword: Validate + Clone {
    ghost cloned: { (m n : Self) → Self.is_clone m n → Self.shape n ≡ Self.shape m };
}
