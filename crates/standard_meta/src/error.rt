//! The error of making the meta validators.
ghost use Rattle.std.specs.Prelude.{◌≡◌};

use schema_engine::BuildError;
use std::alloc::{AllocError, AllocFailed};
use std::error::Error;
use std::fmt;

/// The reason why no meta validators could be made.
#[derive(Debug, Drop)]
pub enum MetaError {
    /// A document is not JSON.
    Unread(serde_json::Error),
    /// A meta-schema is refused.
    Refused(BuildError),
    /// The meta-schema under this URI cannot check schemas.
    ///
    /// One of its keywords shows a fraction, or the matcher leaves a match unfinished.
    Unfit(&'static str),
    /// Memory could not be allocated.
    OutOfMemory,
}

impl From<AllocError> for MetaError {
    ghost use Rattle.standard_meta.specs.declared.error.MetaError.TheVariants.{OutOfMemory};

    ghost from_gives = { λ _ error. error ≡ OutOfMemory };

    fn from(_: AllocError) -> MetaError {
        MetaError::OutOfMemory
    }
}

impl<T: Drop> From<AllocFailed<T>> for MetaError {
    ghost use Rattle.standard_meta.specs.declared.error.MetaError.TheVariants.{OutOfMemory};

    ghost from_gives = { λ _ error. error ≡ OutOfMemory };

    fn from(_: AllocFailed<T>) -> MetaError {
        MetaError::OutOfMemory
    }
}

impl From<serde_json::Error> for MetaError {
    fn from(error: serde_json::Error) -> MetaError {
        MetaError::Unread(error)
    }
}

impl From<BuildError> for MetaError {
    fn from(error: BuildError) -> MetaError {
        MetaError::Refused(error)
    }
}

impl fmt::Display for MetaError {
    fn fmt<W: fmt::Write>(&self, f: &mut fmt::Formatter<W>) -> fmt::Result {
        match self {
            MetaError::Unread(error) => write!(f, "a meta-schema is not JSON: {error}"),
            MetaError::Refused(error) => write!(f, "a meta-schema is refused: {error}"),
            MetaError::Unfit(uri) => write!(f, "the meta-schema '{uri}' cannot check schemas"),
            MetaError::OutOfMemory => write!(f, "out of memory"),
        }
    }
}

impl Error for MetaError {}
