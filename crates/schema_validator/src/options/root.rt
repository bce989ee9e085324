//! The key of a schema's root.
ghost use Rattle.std.specs.Prelude.{◌≡◌, IfOk, IfErr};
ghost use Rattle.schema_keys.specs.KeyViews.{key_of};
ghost use Rattle.schema_traits.specs.Showing.{Shows};
ghost use Rattle.schema_validator.specs.RootWords.{HasRootDraft, IsKeyOfRoot, RefusesRootKey, key_begun, root_base};

use crate::options::ValidationOptions;
use schema_drafts::Draft;
use schema_keys::{BuildError, SchemaKey};
use schema_reports::{Location, OutOfMemory};
use schema_traits::{Resolver, SchemaPlace};
use serde_json::Value;
use std::alloc::Global;

/// Returns the key of a schema's root.
///
/// It is at the place where the resolver's document under the root's base begins, in the root's
/// draft, at the empty location. The draft is the one of the options, or else the one that the
/// schema asks for. The base is the one of the options, or else the schema's identifier, or else
/// `json-schema:///`.
///
/// # Errors
///
/// The resolver refuses the draft that the schema asks for, or has no document under the base; or
/// out of memory.
pub fn root_key<R: Resolver>(
    alloc: Global,
    resolver: &R,
    options: &ValidationOptions,
    schema: &Value,
) -> Result<SchemaKey<R::State>, BuildError>
    ensures key { IfOk result (IsKeyOfRoot R.Resolver resolver.now options.now schema.now) }
    ensures drafted { IfOk result (λ k. HasRootDraft R.Resolver resolver.now options.now schema.now k.draft) }
    ensures refused { IfErr result (RefusesRootKey R.Resolver resolver.now options.now schema.now) }
{
    let draft = options.root_draft(alloc, resolver, schema)?;
    let base = options.base_of(resolver, draft, schema);
    match resolver.root(alloc, base)? {
        Some((state, place)) => Ok(key_at(alloc, resolver, state, place, draft)?),
        None => Err(BuildError::MissingRoot(String::from_str(alloc, base)?)),
    }
}

impl ValidationOptions {
    // Returns the draft of a schema's root.
    fn root_draft<R: Resolver>(
        &self,
        alloc: Global,
        resolver: &R,
        schema: &Value,
    ) -> Result<Draft, BuildError>
        ensures drafted { IfOk result (HasRootDraft R.Resolver resolver.now self.now schema.now) }
        ensures refused { IfErr result (RefusesRootKey R.Resolver resolver.now self.now schema.now) }
    {
        match self.draft {
            Some(draft) => Ok(draft),
            None => Ok(resolver.draft_for(alloc, schema)?),
        }
    }

    // Returns the base of a schema's root.
    fn base_of<'v, R: Resolver>(&'v self, resolver: &R, draft: Draft, schema: &'v Value) -> &'v str
        ensures base { result.now ≡ root_base R.Resolver resolver.now self.now schema.now draft }
    {
        if let Some(base) = &self.base {
            return base.as_str();
        }
        match resolver.id(draft, schema) {
            Some(uri) => uri,
            None => "json-schema:///",
        }
    }
}

// Returns the key of the place where a document begins.
fn key_at<R: Resolver>(
    alloc: Global,
    resolver: &R,
    state: R::State,
    place: SchemaPlace,
    draft: Draft,
) -> Result<SchemaKey<R::State>, OutOfMemory>
    ensures key { Shows (key_of R.point) result (key_begun R.Resolver resolver.now state place draft) }
    ensures draft { IfOk result (λ k. k.draft ≡ draft) }
{
    let vocabularies = resolver.find_vocabularies(alloc, &state, draft, &place)?;
    Ok(SchemaKey {
        place,
        state,
        draft,
        vocabularies,
        location: Location::new(alloc),
        resource_base: Location::new(alloc),
        resource_start: 0,
    })
}
