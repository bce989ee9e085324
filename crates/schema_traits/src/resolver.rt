//! The resolver, which finds the targets of references and identifiers.
//!
//! Equality of states is equality of their points, so no separate law says that equal states answer
//! equally.
//!
//! `value_below`, `in_subresource_read` and `subschemas_read` exist because, without them, a build
//! of a schema that is n deep takes n * n steps. `may_change_draft` exists because the search for
//! embedded resources in every schema took a twelfth of the build of `wide`, and few schemas name
//! another draft inside. All four have default bodies, which are always right.
ghost use Rattle.std.specs.Prelude.{◌≡◌, ◌↔◌, ℕ, false, true, Some, Ok, IfOk, MatchResult};
ghost use Rattle.std.specs.Prelude.{is_some, map, option_map, string_bytes};
ghost use Rattle.serde_json.specs.Data.{object};
ghost use Rattle.serde_json.specs.View.{members_view, view};
ghost use Rattle.theory_definitions.specs.Drafts as schemas;
ghost use Rattle.theory_definitions.specs.Resolving as spec;
ghost use Rattle.schema_drafts.specs.KeywordViews.{draft_of};
ghost use Rattle.schema_traits.specs.ResolverViews.{IsReadAt, place_of, entrance_of, found_of, RefusesValue, IsInside, SubschemasStandBelow};
ghost use Rattle.schema_traits.specs.ResolverViews.{KeepsDraft, placed_in, placed_of};
ghost use Rattle.schema_traits.specs.Showing.{Agrees, Shows, Yields};

use crate::schema_place::{SchemaPath, SchemaPlace};
use schema_drafts::{Draft, VocabularySet};
use schema_reports::OutOfMemory;
use serde_json::{Map, Value};
use std::alloc::{AllocError, AllocFailed, Global};
use std::hash::Hash;

/// The target of a reference: a place in a schema, with its state and draft.
#[derive(Drop)]
pub struct Target<S> {
    pub place: SchemaPlace,
    pub state: S,
    pub draft: Draft,
}

/// The place of a subschema, and the value at that place.
#[derive(Drop)]
pub struct PlacedSchema<'v> {
    pub place: SchemaPlace,
    pub value: Option<&'v Value>,
}

/// The resolver refuses, with a text of its own, or is out of memory.
#[derive(Drop)]
pub enum LookupError {
    Refused(String),
    OutOfMemory,
}

impl From<AllocError> for LookupError {
    ghost use Rattle.schema_traits.specs.declared.resolver.LookupError.TheVariants as lookup;

    ghost from_gives = { λ _ e. e ≡ lookup.OutOfMemory };

    fn from(_refused: AllocError) -> LookupError {
        LookupError::OutOfMemory
    }
}

impl<T: Drop> From<AllocFailed<T>> for LookupError {
    ghost use Rattle.schema_traits.specs.declared.resolver.LookupError.TheVariants as lookup;

    ghost from_gives = { λ _ e. e ≡ lookup.OutOfMemory };

    fn from(_refused: AllocFailed<T>) -> LookupError {
        LookupError::OutOfMemory
    }
}

/// Everything that the engine asks about documents.
///
/// Each answer is a function of the arguments. What is known of a state apart from its
/// representation is its *point*; equal states have the same point.
pub trait Resolver {
    type State: Clone + Eq + Hash + Drop;

    type Point;

    ghost point: { Self.State → Self.Point };

    ghost resolving: { Self → spec.Resolver Self.Point };

    /// Returns whether there is a document with this URI.
    ///
    /// The fragment is ignored.
    fn contains_resource(&self, uri: &str) -> bool
        ensures found { result ≡ is_some ((resolving self.now).root uri.now) };

    /// Returns the state and the place of the root of the document with this URI.
    fn root(
        &self,
        alloc: Global,
        uri: &str,
    ) -> Result<Option<(Self::State, SchemaPlace)>, OutOfMemory>
        ensures root { Shows (option_map (entrance_of point)) result ((resolving self.now).root uri.now) };

    /// Returns the value at a place.
    fn value(&self, place: &SchemaPlace) -> Option<&Value>
        ensures value { IsReadAt (resolving self.now) place.now result };

    /// Returns the value at a place that lies at `_path` below a schema.
    ///
    /// The schema is an object with these members. The engine calls this for each subschema: a
    /// resolver that can find the value from the members overrides it.
    fn value_below<'v>(
        &'v self,
        _members: &'v Map<String, Value>,
        _path: &SchemaPath,
        place: &SchemaPlace,
    ) -> Option<&'v Value>
        ensures value { (outer : schemas.SchemaPlace) → place_of place.now ≡ schemas.at_path outer _path.now →
            (resolving self.now).value outer ≡ Some (object (members_view _members.now.entries)) →
            IsReadAt (resolving self.now) place.now result }
    {
        self.value(place)
    }

    /// Returns the target of a reference.
    ///
    /// `dynamic` says whether it is a `$dynamicRef`.
    fn lookup(
        &self,
        alloc: Global,
        state: &Self::State,
        reference: &str,
        dynamic: bool,
    ) -> Result<Target<Self::State>, LookupError>
        ensures leads { Agrees (found_of point) result ((resolving self.now).lookup (point state.now) reference.now dynamic) };

    /// Returns the target of a `$recursiveRef`.
    fn lookup_recursive_ref(
        &self,
        alloc: Global,
        state: &Self::State,
    ) -> Result<Target<Self::State>, LookupError>
        ensures leads { Agrees (found_of point) result ((resolving self.now).lookup_recursive (point state.now)) };

    /// Returns the state inside a subschema.
    fn in_subresource(
        &self,
        alloc: Global,
        state: &Self::State,
        draft: Draft,
        place: &SchemaPlace,
    ) -> Result<Self::State, LookupError>
        ensures inside { Agrees point result
            ((resolving self.now).in_subresource (point state.now) (draft_of draft) (place_of place.now)) };

    /// Returns the state inside a subschema whose value was read at its place.
    ///
    /// The engine calls this for each subschema: a resolver that can find the state from the value
    /// overrides it.
    fn in_subresource_read(
        &self,
        alloc: Global,
        state: &Self::State,
        draft: Draft,
        place: &SchemaPlace,
        _value: Option<&Value>,
    ) -> Result<Self::State, LookupError>
        ensures inside { IsReadAt (resolving self.now) place.now _value.entry →
            Agrees point result ((resolving self.now).in_subresource (point state.now) (draft_of draft) (place_of place.now)) }
    {
        self.in_subresource(alloc, state, draft, place)
    }

    /// Resolves a reference to a URI.
    ///
    /// Its fragment says where in its resource the target is looked up.
    fn resolve_uri(
        &self,
        alloc: Global,
        state: &Self::State,
        reference: &str,
    ) -> Result<String, LookupError>
        ensures uri { Agrees string_bytes result ((resolving self.now).resolve_uri (point state.now) reference.now) };

    /// Returns the base URI.
    fn base_uri<'s>(&self, state: &'s Self::State) -> &'s str
        ensures uri { result.now ≡ (resolving self.now).base_uri (point state.now) };

    /// Returns the place at which the state's resource begins.
    ///
    /// This is the schema with the identifier under which the state is read, or the document's
    /// root. Locations inside the target of a reference count from this place if the target lies
    /// below it.
    fn resource_root(&self, alloc: Global, state: &Self::State) -> Result<SchemaPlace, OutOfMemory>
        ensures root { Shows place_of result ((resolving self.now).resource_root (point state.now)) };

    /// Returns the vocabularies in force at a place.
    fn find_vocabularies(
        &self,
        alloc: Global,
        state: &Self::State,
        draft: Draft,
        place: &SchemaPlace,
    ) -> Result<VocabularySet, OutOfMemory>
        ensures vocabularies { Yields result
            ((resolving self.now).find_vocabularies (point state.now) (draft_of draft) (place_of place.now)) };

    /// Returns the draft of a value inside a schema of this draft.
    fn detect(&self, draft: Draft, value: &Value) -> Draft
        ensures draft { draft_of result ≡ (resolving self.now).detect (draft_of draft) (view value.now) };

    /// Returns whether some subschema below a place may have another draft.
    ///
    /// The schema's value was read at that place. The engine asks before it checks a schema: a
    /// resolver that can rule this out overrides the method, and spares a walk through the
    /// subschemas.
    fn may_change_draft(&self, _draft: Draft, _place: &SchemaPlace, _value: Option<&Value>) -> bool
        ensures keeps { IsReadAt (resolving self.now) _place.now _value.entry →
            result ≡ false → (n : ℕ) → KeepsDraft (resolving self.now) n (draft_of _draft) (place_of _place.now) }
    {
        true
    }

    /// Returns the draft that a root declares.
    ///
    /// If the root holds a fraction, a refusal may have any text.
    fn draft_for(&self, alloc: Global, value: &Value) -> Result<Draft, LookupError>
        ensures draft { MatchResult result (λ d. (resolving self.now).draft_for (view value.now) ≡ Ok (draft_of d))
            (RefusesValue (view value.now) ((resolving self.now).draft_for (view value.now))) };

    /// Returns the identifier of a schema.
    fn id<'v>(&self, draft: Draft, value: &'v Value) -> Option<&'v str>
        ensures id { option_map (λ t. t.now) result ≡ (resolving self.now).id (draft_of draft) (view value.now) };

    /// Returns the subschemas of the schema at a place, in order.
    fn subresources_of(
        &self,
        alloc: Global,
        draft: Draft,
        place: &SchemaPlace,
    ) -> Result<Vec<SchemaPlace>, OutOfMemory>
        ensures places { IfOk result (λ ps. map place_of ps.items
            ≡ (resolving self.now).subresources_of (draft_of draft) (place_of place.now)) };

    /// Returns the subschemas of the schema at a place with their values, in order.
    ///
    /// The schema's value was read at that place. The engine calls this for each schema that it
    /// checks: a resolver that can find the subschemas in the value overrides it.
    fn subschemas_read<'v>(
        &'v self,
        alloc: Global,
        draft: Draft,
        place: &SchemaPlace,
        _value: Option<&'v Value>,
    ) -> Result<Vec<PlacedSchema<'v>>, OutOfMemory>
        ensures subschemas { IsReadAt (resolving self.now) place.now _value.entry →
            IfOk result (λ ps. map placed_of ps.items ≡ map (placed_in (resolving self.now))
            ((resolving self.now).subresources_of (draft_of draft) (place_of place.now))) }
    {
        let places = self.subresources_of(alloc, draft, place)?;
        let mut placed = Vec::new(alloc);
        for below in places {
            let value = self.value(&below);
            placed.push(PlacedSchema {
                place: below,
                value,
            })?;
        }
        Ok(placed)
    }

    /// Returns whether the draft knows a keyword of this name.
    fn is_known_keyword(&self, draft: Draft, name: &str) -> bool
        ensures known { result ≡ (resolving self.now).is_known_keyword (draft_of draft) name.now };

    ghost same: { (r : Self) (a b : Self.Point) → ((resolving r).same_state a b ≡ true) ↔ (a ≡ b) };

    ghost equal: { (s t : Self.State) → (Self.State.eq s t ≡ true) ↔ (point s ≡ point t) };

    ghost cloned: { (s t : Self.State) → Self.State.is_clone s t → point t ≡ point s };

    ghost inside: { (r : Self) → IsInside (resolving r) };

    ghost below: { (r : Self) → SubschemasStandBelow (resolving r) };
}
