//! Keys, which nodes are compiled for, and their comparison.
//!
//! The holders of a key share it instead of copying it, because its place and its location are as
//! long as the schema is deep.
ghost use Rattle.std.specs.Prelude.{◌≡◌, ◌↔◌, IsTrue};
ghost use Rattle.schema_keys.specs.KeyViews.{key_of};

use schema_drafts::{Draft, VocabularySet};
use schema_reports::Location;
use schema_traits::{Resolver, SchemaPlace};

/// The key that a node is compiled for.
///
/// It holds a schema's place in a document, how the schema is interpreted there, and how it was
/// reached. Equal keys share one node.
#[derive(Drop)]
pub struct SchemaKey<S> {
    /// The place of the schema in its document.
    pub place: SchemaPlace,
    /// The resolver's state there.
    pub state: S,
    /// The draft of the schema.
    pub draft: Draft,
    /// The vocabularies in force.
    pub vocabularies: VocabularySet,
    /// The pointer that names the schema in errors.
    ///
    /// It is the pointer of the last reference, and the path from there to the schema.
    pub location: Location,
    /// The part of `location` that is the last reference's pointer.
    pub resource_base: Location,
    /// How many bytes of `location` lie outside the schema's resource.
    pub resource_start: usize,
}

/// Returns whether both keys are equal.
pub(crate) fn same_key<R: Resolver>(left: &SchemaKey<R::State>, right: &SchemaKey<R::State>) -> bool
    ensures same { IsTrue result ↔ (key_of R.point left.now ≡ key_of R.point right.now) }
{
    if !(left.place == right.place) {
        return false;
    }
    if !(left.state == right.state) {
        return false;
    }
    if !(left.draft == right.draft) {
        return false;
    }
    if !left.vocabularies.same(&right.vocabularies) {
        return false;
    }
    if !same_location(&left.location, &right.location) {
        return false;
    }
    if !same_location(&left.resource_base, &right.resource_base) {
        return false;
    }
    left.resource_start == right.resource_start
}

fn same_location(left: &Location, right: &Location) -> bool
    ensures same { IsTrue result ↔ (left.now ≡ right.now) }
{
    left.as_str() == right.as_str()
}
