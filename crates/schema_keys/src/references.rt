//! References: where they lead, and the keys of their targets.
//!
//! An empty reference counts as `#`, so a resolver never gets an empty text. A `$ref` or a
//! `$dynamicRef` is also resolved to a URI, because a pointer in it is the target's location.
ghost use Rattle.std.specs.Prelude.{◌≡◌, IfOk, IfErr, Ok, not, option_map, string_bytes};
ghost use Rattle.std.specs.Str.Lossy.{utf8_lossy};
ghost use Rattle.percent_encoding.specs.Percent.{percent_decode};
ghost use Rattle.theory_definitions.specs.Pointer.{pointer_to};
ghost use Rattle.theory_definitions.specs.Plan.{fragment, reference_named};
ghost use Rattle.theory_definitions.specs.Plan.{is_recursive_ref};
ghost use Rattle.schema_drafts.specs.KeywordViews.{builtin_text};
ghost use Rattle.schema_traits.specs.ResolverViews.{found_of, place_of};
ghost use Rattle.schema_keys.specs.KeyViews.{key_of, kind_of};
ghost use Rattle.schema_keys.specs.Compiling.{skips};
ghost use Rattle.schema_keys.specs.Referring.{by_flag};
ghost use Rattle.schema_keys.specs.Here.{place_here, resolves, finds, looks_up, looks_up_recursive, RefersBy, RefusesReference};
ghost use Rattle.schema_keys.specs.Here.{LeadsTo, path_in_resource, target_location, target_start, target_key, target_key_at};
ghost use Rattle.schema_traits.specs.Showing.{Yields, Shows, Agrees};

use crate::context::Context;
use crate::error::BuildError;
use crate::key::SchemaKey;
use crate::text::fragment_of;
use percent_encoding::{decode_utf8_lossy, percent_decode};
use schema_drafts::BuiltinKeyword;
use schema_reports::{Location, OutOfMemory};
use schema_traits::{LookupError, Resolver, Target};
use std::alloc::Global;

/// A reference keyword.
#[derive(Clone, Copy)]
pub enum ReferenceKind {
    /// `$ref`.
    Ref,
    /// `$dynamicRef`.
    Dynamic,
    /// `$recursiveRef`.
    Recursive,
}

impl ReferenceKind {
    /// Returns whether targets of this kind nest.
    ///
    /// Those of `$recursiveRef` do not.
    pub fn nests(self) -> bool
        ensures nests { result ≡ not (is_recursive_ref (kind_of self)) }
    {
        !matches!(self, ReferenceKind::Recursive)
    }
}

/// Returns the kind of a keyword that is a reference.
///
/// `None` for any other keyword.
#[tactic(auto, using(crate::proofs::OtherNames::not_ref, crate::proofs::OtherNames::not_dynamic_ref, crate::proofs::OtherNames::not_recursive_ref))]
pub fn reference_kind(keyword: BuiltinKeyword) -> Option<ReferenceKind>
    ensures kind { option_map kind_of result ≡ reference_named (builtin_text keyword) }
{
    match keyword {
        BuiltinKeyword::Ref => Some(ReferenceKind::Ref),
        BuiltinKeyword::DynamicRef => Some(ReferenceKind::Dynamic),
        BuiltinKeyword::RecursiveRef => Some(ReferenceKind::Recursive),
        _ => None,
    }
}

fn decoded_pointer(alloc: Global, fragment: &str) -> Result<Location, OutOfMemory>
    ensures decoded { Yields result (utf8_lossy (percent_decode fragment.now)) }
{
    let bytes = percent_decode(fragment.as_bytes()).into_cow(alloc)?;
    let text = decode_utf8_lossy(alloc, bytes)?;
    Location::from_escaped(alloc, text.as_str())
}

// A reference's target, and the URI that the reference resolves to.
#[derive(Drop)]
struct Sought<S> {
    target: Target<S>,
    uri: String,
}

/// Where a reference's target is.
#[derive(Drop)]
pub struct RefTarget {
    /// The location of the target.
    ///
    /// It is the reference's fragment if that is a pointer, or else the target's path in its
    /// resource.
    pub location: Location,
    /// How many bytes of `location` lie outside the target's resource.
    pub start: usize,
}

impl<'p, 'c, R: Resolver> Context<'p, 'c, R> {
    /// Returns the URI that a reference in the schema's resource resolves to.
    ///
    /// An empty reference counts as `#`.
    ///
    /// # Errors
    ///
    /// The resolver's refusal of the reference, or out of memory.
    pub fn resolve_reference_uri(&self, reference: &str) -> Result<String, LookupError>
        ensures uri { Agrees string_bytes result (resolves R.Resolver self.now reference.now) }
    {
        let text = if reference.is_empty() { "#" } else { reference };
        self.resolver.resolve_uri(self.alloc, &self.key.state, text)
    }

    /// Returns the target of a reference, a `$dynamicRef` if `dynamic` is true.
    ///
    /// An empty reference counts as `#`.
    ///
    /// # Errors
    ///
    /// The resolver's refusal of the reference, or out of memory.
    pub fn lookup(&self, reference: &str, dynamic: bool) -> Result<Target<R::State>, LookupError>
        ensures found { Agrees (found_of R.point) result (looks_up R.Resolver self.now dynamic reference.now) }
    {
        let reference = if reference.is_empty() { "#" } else { reference };
        self.resolver
            .lookup(self.alloc, &self.key.state, reference, dynamic)
    }

    /// Returns the target of a `$recursiveRef`.
    ///
    /// # Errors
    ///
    /// The resolver's refusal of the reference, or out of memory.
    pub fn lookup_recursive_reference(&self) -> Result<Target<R::State>, LookupError>
        ensures found { Agrees (found_of R.point) result (looks_up_recursive R.Resolver self.now) }
    {
        self.resolver
            .lookup_recursive_ref(self.alloc, &self.key.state)
    }

    fn seek_by_uri(&self, text: &str, dynamic: bool) -> Result<Sought<R::State>, LookupError>
        ensures found { Agrees (λ s. found_of R.point s.target) result (finds R.Resolver self.now (by_flag dynamic) text.now) }
        ensures uri { IfOk result (λ s. resolves R.Resolver self.now text.now ≡ Ok (string_bytes s.uri)) }
    {
        let uri = self.resolve_reference_uri(text)?;
        let target = self.lookup(text, dynamic)?;
        Ok(Sought { target, uri })
    }

    // The target of a reference, and the URI that it resolves to; that of a `$recursiveRef` is
    // empty.
    fn seek(&self, kind: ReferenceKind, text: &str) -> Result<Sought<R::State>, LookupError>
        ensures found { Agrees (λ s. found_of R.point s.target) result (finds R.Resolver self.now (kind_of kind) text.now) }
        ensures uri { IfOk result (λ s. RefersBy R.Resolver self.now (kind_of kind) text.now s.uri) }
    {
        match kind {
            ReferenceKind::Ref => self.seek_by_uri(text, false),
            ReferenceKind::Dynamic => self.seek_by_uri(text, true),
            ReferenceKind::Recursive => Ok(Sought {
                target: self.lookup_recursive_reference()?,
                uri: String::new(self.alloc),
            }),
        }
    }

    fn lookup_reference(
        &self,
        kind: ReferenceKind,
        text: &str,
    ) -> Result<Sought<R::State>, BuildError>
        ensures found { IfOk result (λ s. finds R.Resolver self.now (kind_of kind) text.now ≡ Ok (found_of R.point s.target)) }
        ensures uri { IfOk result (λ s. RefersBy R.Resolver self.now (kind_of kind) text.now s.uri) }
        ensures refused { IfErr result (RefusesReference R.Resolver self.now (kind_of kind) text.now) }
    {
        Ok(self.seek(kind, text)?)
    }

    // Returns whether a reference is skipped: it leads to the object that holds it, and is no
    // `$recursiveRef`.
    fn is_skipped(&self, kind: ReferenceKind, target: &Target<R::State>) -> bool
        ensures skipped { result ≡ skips (kind_of kind) (place_of target.now.place) (place_here self.now) }
    {
        match kind {
            ReferenceKind::Recursive => false,
            ReferenceKind::Ref => target.place == self.key.place,
            ReferenceKind::Dynamic => target.place == self.key.place,
        }
    }

    /// Returns the location of a target that is referred to by name.
    ///
    /// It is the target's path below the root of its resource.
    ///
    /// # Errors
    ///
    /// Out of memory.
    pub fn anchor_location(&self, target: &Target<R::State>) -> Result<Location, OutOfMemory>
        ensures location { Yields result (pointer_to (path_in_resource R.Resolver self.now target.now)) }
    {
        let root = self.resolver.resource_root(self.alloc, &target.state)?;
        let path = target.place.path.after(self.alloc, root.path.len())?;
        path.pointer(self.alloc)
    }

    // The fragment if it is a pointer; for a name, the target's path below the root of its
    // resource.
    fn location_of_target(
        &self,
        target: &Target<R::State>,
        fragment: &str,
    ) -> Result<Location, OutOfMemory>
        ensures location { Yields result (target_location R.Resolver self.now target.now fragment.now) }
    {
        if fragment.is_empty() {
            return Ok(Location::new(self.alloc));
        }
        if fragment.as_bytes()[0] == b'/' {
            return decoded_pointer(self.alloc, fragment);
        }
        self.anchor_location(target)
    }

    // The number of bytes of the location that lie outside the target's resource: 0 for a name.
    fn start_of_fragment(
        &self,
        target: &Target<R::State>,
        fragment: &str,
        location: &Location,
    ) -> Result<usize, OutOfMemory>
        requires location { location.now ≡ target_location R.Resolver self.now target.now fragment.now }
        ensures start { Yields result (target_start R.Resolver self.now target.now fragment.now) }
    {
        if fragment.is_empty() {
            return Ok(0);
        }
        if fragment.as_bytes()[0] == b'/' {
            return self.start_of_target(target, location);
        }
        Ok(0)
    }

    /// Returns where a reference's target is.
    ///
    /// `uri` is the URI that the reference resolves to.
    ///
    /// # Errors
    ///
    /// Out of memory.
    pub fn ref_target(&self, uri: &str, target: &Target<R::State>) -> Result<RefTarget, OutOfMemory>
        ensures location { IfOk result (λ t. t.location ≡ target_location R.Resolver self.now target.now (fragment uri.now)) }
        ensures start { IfOk result (λ t. t.start ≡ target_start R.Resolver self.now target.now (fragment uri.now)) }
    {
        let fragment = fragment_of(uri);
        let location = self.location_of_target(target, fragment)?;
        let start = self.start_of_fragment(target, fragment, &location)?;
        Ok(RefTarget { location, start })
    }

    /// Returns the key of a reference's target at this location.
    ///
    /// It has the vocabularies that are in force at the target.
    ///
    /// # Errors
    ///
    /// Out of memory.
    pub fn with_resolver_and_draft(
        &self,
        target: Target<R::State>,
        stands: RefTarget,
    ) -> Result<SchemaKey<R::State>, OutOfMemory>
        ensures key { Shows (key_of R.point) result (target_key_at R.Resolver self.now target stands.location stands.start) }
    {
        let vocabularies = self
            .resolver
            .find_vocabularies(self.alloc, &target.state, target.draft, &target.place)?;
        Ok(SchemaKey {
            place: target.place,
            state: target.state,
            draft: target.draft,
            vocabularies,
            resource_base: stands.location.clone()?,
            location: stands.location,
            resource_start: stands.start,
        })
    }

    fn referred_key(&self, sought: Sought<R::State>) -> Result<SchemaKey<R::State>, OutOfMemory>
        ensures key { Shows (key_of R.point) result (target_key R.Resolver self.now sought.target (string_bytes sought.uri)) }
    {
        let stands = self.ref_target(sought.uri.as_str(), &sought.target)?;
        self.with_resolver_and_draft(sought.target, stands)
    }

    /// Returns the key of a reference's target.
    ///
    /// `None` if the target is the object that holds the reference.
    ///
    /// # Errors
    ///
    /// `BuildError::Lookup` if the resolver refuses the reference, or out of memory.
    pub fn target_key(
        &self,
        kind: ReferenceKind,
        text: &str,
    ) -> Result<Option<SchemaKey<R::State>>, BuildError>
        ensures target { IfOk result (LeadsTo R.Resolver self.now (kind_of kind) text.now) }
        ensures refused { IfErr result (RefusesReference R.Resolver self.now (kind_of kind) text.now) }
    {
        let sought = self.lookup_reference(kind, text)?;
        if self.is_skipped(kind, &sought.target) {
            return Ok(None);
        }
        Ok(Some(self.referred_key(sought)?))
    }
}
