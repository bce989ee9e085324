//! What is proved of every keyword type.
//!
//! A function states the law, and does nothing.
ghost use Rattle.std.specs.Prelude.{Bool};
ghost use Rattle.meta_checker.specs.FirstErrors.{FirstIsTold};

use schema_traits::Validate;

/// The first error of a call is a function of the nodes and the instance.
///
/// If the matcher finishes every match, the first error of a call is the first one that the
/// numbered nodes report at a depth beyond which more depth changes nothing; or neither reports
/// one. That holds even if chains of references return.
pub fn first_errors_are_told<K: Validate>()
    ensures told { (texts : Bool) → FirstIsTold (K.words texts) }
{}
