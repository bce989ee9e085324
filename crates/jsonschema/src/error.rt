//! Why no validator is built, for the users of this library.
ghost use Rattle.std.specs.Prelude.{◌≡◌};
ghost use Rattle.jsonschema.specs.Refusing.{IsUnrefused, Tells, blamed};

use schema_engine::{BuildError as EngineError, Location};
use standard_meta::MetaError;
use std::alloc::{AllocError, AllocFailed};
use std::error::Error;
use std::fmt;

/// Why no validator is built.
#[derive(Drop)]
pub enum BuildError {
    /// The schema is refused.
    Refused(EngineError),
    /// A supplied meta-schema that the schema leads to is refused.
    MetaSchemaRefused { uri: String, refused: EngineError },
    /// A supplied meta-schema that the schema leads to cannot check schemas.
    ///
    /// A keyword of it shows a fraction, a pattern has a back reference, or it leads back to itself.
    MetaSchemaUnfit { uri: String },
    /// A meta-schema of the standard cannot check schemas.
    MetaSchemas(MetaError),
    /// Out of memory.
    OutOfMemory,
}

impl BuildError {
    /// Returns the place that is refused, as a JSON Pointer, if the refusal has one.
    ///
    /// That of a keyword that its table refuses counts from the keyword's own object.
    pub fn location(&self) -> Option<&Location> {
        match self {
            BuildError::Refused(refused) => location_of(refused),
            BuildError::MetaSchemaRefused { uri: _, refused } => location_of(refused),
            BuildError::MetaSchemaUnfit { uri: _ } => None,
            BuildError::MetaSchemas(_) => None,
            BuildError::OutOfMemory => None,
        }
    }
}

/// Returns the place that the engine refuses.
fn location_of(refused: &EngineError) -> Option<&Location> {
    match refused {
        EngineError::NotASchema(at) => Some(at),
        EngineError::ReferenceNotText(at) => Some(at),
        EngineError::KeywordRefused(error) => Some(&error.schema_path),
        EngineError::MetaSchema(error) => Some(&error.instance_path),
        EngineError::Lookup(_) => None,
        EngineError::UnsupportedVocabulary(_) => None,
        EngineError::MissingRoot(_) => None,
        EngineError::NodeLimit(_) => None,
        EngineError::OutOfMemory => None,
    }
}

/// Returns the engine's refusal as an error of this library.
pub(crate) fn error_of(refused: EngineError) -> BuildError
    ensures told { Tells refused result }
{
    match refused {
        EngineError::OutOfMemory => BuildError::OutOfMemory,
        other => BuildError::Refused(other),
    }
}

/// Returns the error of the build of a supplied meta-schema, as one of the schema that names it.
///
/// The meta-schema is supplied under this URI.
pub(crate) fn error_of_meta(uri: String, fault: BuildError) -> BuildError
    ensures blamed { result ≡ blamed uri fault }
{
    match fault {
        BuildError::Refused(refused) => BuildError::MetaSchemaRefused { uri, refused },
        other => other,
    }
}

/// Returns the fault of the meta-schemas as an error of this library.
pub(crate) fn unrefused(fault: MetaError) -> BuildError
    ensures unrefused { IsUnrefused result }
{
    match fault {
        MetaError::OutOfMemory => BuildError::OutOfMemory,
        other => BuildError::MetaSchemas(other),
    }
}

impl fmt::Display for BuildError {
    fn fmt<W: fmt::Write>(&self, f: &mut fmt::Formatter<W>) -> fmt::Result {
        match self {
            BuildError::Refused(refused) => write!(f, "{refused}"),
            BuildError::MetaSchemaRefused { uri, refused } => write!(
                f,
                "the meta-schema '{uri}': {refused}"
            ),
            BuildError::MetaSchemaUnfit { uri } => write!(
                f,
                "the meta-schema '{uri}' cannot check schemas"
            ),
            BuildError::MetaSchemas(fault) => write!(f, "{fault}"),
            BuildError::OutOfMemory => write!(f, "out of memory"),
        }
    }
}

/// Writes the same text as `Display`.
impl fmt::Debug for BuildError {
    fn fmt<W: fmt::Write>(&self, f: &mut fmt::Formatter<W>) -> fmt::Result {
        write!(f, "{self}")
    }
}

impl Error for BuildError {}

impl From<AllocError> for BuildError {
    ghost use Rattle.jsonschema.specs.declared.error.BuildError.TheVariants as build;

    ghost from_gives = { λ _ e. e ≡ build.OutOfMemory };

    fn from(_refused: AllocError) -> BuildError {
        BuildError::OutOfMemory
    }
}

impl<T: Drop> From<AllocFailed<T>> for BuildError {
    ghost use Rattle.jsonschema.specs.declared.error.BuildError.TheVariants as build;

    ghost from_gives = { λ _ e. e ≡ build.OutOfMemory };

    fn from(_refused: AllocFailed<T>) -> BuildError {
        BuildError::OutOfMemory
    }
}
