//! A resolver whose state grows by one with each lookup.
//!
//! With it, a schema that refers to itself never reaches a key twice.
ghost use Rattle.std.specs.Prelude.{◌≡◌, MatchResult, Ok};
ghost use Rattle.schema_traits.specs.ResolverViews.{Refuses, found_of};
ghost use Rattle.test_parts.specs.Growing.{next};

use schema_drafts::{Draft, VocabularySet};
use schema_reports::OutOfMemory;
use schema_traits::{LookupError, Resolver, SchemaPlace, Target};
use serde_json::Value;
use standard_resolver::{DocumentResolver, root_place};
use std::alloc::Global;

/// A resolver of one document of draft 7, whose state is the number of lookups.
///
/// Each lookup leads to the document's root.
#[derive(Drop)]
pub struct GrowingResolver<'a> {
    /// The resolver that finds the document's values.
    pub document: DocumentResolver<'a>,
}

/// Returns the root, with one more lookup.
fn next(alloc: Global, lookups: u64) -> Result<Target<u64>, LookupError>
    ensures next { MatchResult result (λ t. next lookups ≡ Ok (found_of (λ n. n) t)) (Refuses (next lookups)) }
{
    if lookups < u64::MAX {
        Ok(Target {
            place: root_place(alloc),
            state: lookups + 1,
            draft: Draft::Draft7,
        })
    } else {
        Err(LookupError::Refused(String::from_str(alloc, "no more states")?))
    }
}

impl<'a> Resolver for GrowingResolver<'a> {
    ghost use Rattle.std.proofs.lemmas.Bool.{eq-eqb as true_where_same, eqb-true as same_where_true};
    ghost use Rattle.standard_resolver.specs.ResolverLaws.{values_stand_inside};
    ghost use Rattle.test_parts.specs.Growing.{growing};

    type State = u64;

    type Point = u64;

    ghost point = { λ n. n };

    ghost resolving = { λ r. growing r.document };

    fn contains_resource(&self, _uri: &str) -> bool {
        true
    }

    fn root(&self, alloc: Global, _uri: &str) -> Result<Option<(u64, SchemaPlace)>, OutOfMemory> {
        Ok(Some((0, root_place(alloc))))
    }

    fn value(&self, place: &SchemaPlace) -> Option<&Value> {
        self.document.value(place)
    }

    fn lookup(
        &self,
        alloc: Global,
        state: &u64,
        _reference: &str,
        _dynamic: bool,
    ) -> Result<Target<u64>, LookupError> {
        next(alloc, *state)
    }

    fn lookup_recursive_ref(&self, alloc: Global, state: &u64) -> Result<Target<u64>, LookupError> {
        next(alloc, *state)
    }

    fn in_subresource(
        &self,
        _alloc: Global,
        state: &u64,
        _draft: Draft,
        _place: &SchemaPlace,
    ) -> Result<u64, LookupError> {
        Ok(*state)
    }

    fn resolve_uri(
        &self,
        alloc: Global,
        _state: &u64,
        reference: &str,
    ) -> Result<String, LookupError> {
        Ok(String::from_str(alloc, reference)?)
    }

    fn base_uri<'s>(&self, _state: &'s u64) -> &'s str {
        "json-schema:///"
    }

    fn resource_root(&self, alloc: Global, _state: &u64) -> Result<SchemaPlace, OutOfMemory> {
        Ok(root_place(alloc))
    }

    fn find_vocabularies(
        &self,
        alloc: Global,
        _state: &u64,
        _draft: Draft,
        _place: &SchemaPlace,
    ) -> Result<VocabularySet, OutOfMemory> {
        Ok(VocabularySet::new(alloc))
    }

    fn detect(&self, draft: Draft, _value: &Value) -> Draft {
        draft
    }

    fn draft_for(&self, _alloc: Global, _value: &Value) -> Result<Draft, LookupError> {
        Ok(Draft::Draft7)
    }

    fn id<'v>(&self, _draft: Draft, _value: &'v Value) -> Option<&'v str> {
        None
    }

    fn subresources_of(
        &self,
        alloc: Global,
        _draft: Draft,
        _place: &SchemaPlace,
    ) -> Result<Vec<SchemaPlace>, OutOfMemory> {
        Ok(Vec::new(alloc))
    }

    fn is_known_keyword(&self, _draft: Draft, _name: &str) -> bool {
        true
    }

    ghost same = { λ r a b. (same_where_true a b, true_where_same a b) };

    ghost equal = { λ s t. (same_where_true s t, true_where_same s t) };

    ghost cloned = { λ s t same. same };

    ghost inside = { λ r. values_stand_inside r.document };

    ghost below = { λ r draft p. tt };
}
