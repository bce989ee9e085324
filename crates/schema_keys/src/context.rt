//! The context in which a schema is compiled.
//!
//! This module has its draft, its vocabularies and its location, and what follows from them.
//! References are in `references`, subschemas in `subschema`.
ghost use Rattle.std.specs.Prelude.{◌≡◌, ◌++◌, ◌∷◌, IfOk};
ghost use Rattle.std.specs.Prelude.{IfSome, drop, not, option_map, string_bytes};
ghost use Rattle.theory_definitions.specs.Pointer.{joined};
ghost use Rattle.theory_definitions.specs.Drafts.{ref_stands_alone};
ghost use Rattle.schema_drafts.specs.KeywordTable.{is_in_force};
ghost use Rattle.schema_drafts.specs.KeywordViews.{builtin_text, vocabulary_of};
ghost use Rattle.theory_definitions.specs.Plan.{encoded};
ghost use Rattle.schema_keys.specs.Builtins.{builtin, row_of};
ghost use Rattle.schema_keys.specs.Dialects.{asserts_formats, integer_valued_numbers};
ghost use Rattle.schema_keys.specs.Here.{draft_here, base_here, absolute_here, lone_reference, validates_formats};
ghost use Rattle.schema_traits.specs.Readings.{value_read};
ghost use Rattle.schema_traits.specs.Showing.{Yields, Shows};
ghost use Rattle.schema_keys.specs.Showing.{IsRest};

use crate::key::SchemaKey;
use crate::options::CompileOptions;
use crate::text::{has_own_scheme, text_before_fragment};
use schema_drafts::{BuiltinRow, Draft, Vocabulary, builtin_row, has_vocabulary};
use schema_node_table::push_fragment;
use schema_reports::{Location, LocationSegment, OutOfMemory};
use schema_traits::Resolver;
use serde_json::{Map, Value};
use std::alloc::Global;

/// A schema's key, with what its compilation uses.
///
/// That is the memory, the resolver and the options.
#[derive_where(Clone, Copy)]
pub struct Context<'p, 'c, R: Resolver> {
    pub alloc: Global,
    pub resolver: &'p R,
    pub options: &'p CompileOptions,
    pub key: &'c SchemaKey<R::State>,
}

/// The parts of absolute locations in a resource.
///
/// They are its URI, and the number of bytes of a location that lie outside the resource.
#[derive(Drop)]
pub struct DeferredAbsoluteLocation {
    pub base: String,
    pub resource_start: usize,
}

impl DeferredAbsoluteLocation {
    /// Returns the absolute form of a location in the resource.
    ///
    /// It is the URI, `#`, and the location from the start of the resource on, as a fragment.
    ///
    /// # Errors
    ///
    /// Out of memory.
    pub fn resolve(self, location: &Location) -> Result<String, OutOfMemory>
        ensures absolute { Shows string_bytes result (string_bytes self.base ++ (35 ∷ encoded (drop self.resource_start location.now))) }
    {
        let mut text = self.base;
        push_fragment(&mut text, location.as_str(), self.resource_start)?;
        Ok(text)
    }
}

impl<'p, 'c, R: Resolver> Context<'p, 'c, R> {
    /// Returns the schema's draft.
    pub fn draft(&self) -> Draft
        ensures draft { result ≡ self.now.key.now.draft }
    {
        self.key.draft
    }

    /// Returns the schema's location.
    pub fn location(&self) -> &Location
        ensures location { result.now ≡ self.now.key.now.location }
    {
        &self.key.location
    }

    /// Returns the location of the schema's keyword with this name.
    ///
    /// # Errors
    ///
    /// Out of memory.
    pub fn new_at_location(&self, name: &str) -> Result<Location, OutOfMemory>
        ensures location { Yields result (joined self.now.key.now.location name.now) }
    {
        self.location().join(LocationSegment::Property(name))
    }

    /// Returns the schema's location after the part of the last reference.
    ///
    /// `None` if the location does not begin with that part.
    pub fn suffix(&self) -> Option<&str>
        ensures suffix { IsRest self.now.key.now.resource_base self.now.key.now.location result }
    {
        self.location()
            .as_str()
            .strip_prefix(self.key.resource_base.as_str())
    }

    /// Returns the URI of absolute locations in the schema's resource.
    ///
    /// `None` if its scheme is `json-schema`.
    ///
    /// # Errors
    ///
    /// Out of memory.
    pub fn base_uri(&self) -> Result<Option<String>, OutOfMemory>
        ensures base { Shows (option_map string_bytes) result (base_here R.Resolver self.now) }
    {
        let uri = self.resolver.base_uri(&self.key.state);
        if has_own_scheme(uri) {
            return Ok(None);
        }
        Ok(Some(String::from_str(self.alloc, text_before_fragment(uri))?))
    }

    /// Returns the parts of absolute locations in the schema's resource.
    ///
    /// They serve to make such a location later. `None` if that resource has no URI that is shown.
    ///
    /// # Errors
    ///
    /// Out of memory.
    pub fn deferred_absolute_location(
        &self,
    ) -> Result<Option<DeferredAbsoluteLocation>, OutOfMemory>
        ensures base { Shows (option_map (λ d. string_bytes d.base)) result (base_here R.Resolver self.now) }
        ensures start { IfOk result (λ o. IfSome o (λ d. d.resource_start ≡ self.now.key.now.resource_start)) }
    {
        match self.base_uri()? {
            None => Ok(None),
            Some(base) => Ok(Some(DeferredAbsoluteLocation {
                base,
                resource_start: self.key.resource_start,
            })),
        }
    }

    /// Returns the absolute form of a location in the schema's resource.
    ///
    /// `None` if that resource has no URI that is shown.
    ///
    /// # Errors
    ///
    /// Out of memory.
    pub fn absolute_location(&self, location: &Location) -> Result<Option<String>, OutOfMemory>
        ensures absolute { Shows (option_map string_bytes) result (absolute_here R.Resolver self.now location.now) }
    {
        match self.base_uri()? {
            None => Ok(None),
            Some(base) => {
                let mut text = base;
                push_fragment(&mut text, location.as_str(), self.key.resource_start)?;
                Ok(Some(text))
            }
        }
    }

    /// Returns whether a vocabulary is in force.
    ///
    /// Before draft 2019-09 every vocabulary is. From then on the core vocabulary always is, and
    /// any other if it is in the schema's set.
    pub fn has_vocabulary(&self, vocabulary: &Vocabulary) -> bool
        ensures in_force { result ≡ is_in_force (draft_here self.now) self.now.key.now.vocabularies (vocabulary_of vocabulary.now) }
    {
        has_vocabulary(self.key.draft, &self.key.vocabularies, vocabulary)
    }

    /// Returns the row of the standard's keyword with this name.
    ///
    /// `None` if the schema's draft does not have it, or if its vocabulary is not in force.
    #[tactic(auto, unfolding(crate::specs::Builtins::builtin))]
    pub fn builtin_row(&self, name: &str) -> Option<BuiltinRow>
        ensures row { option_map (row_of name.now) result ≡ builtin (draft_here self.now) self.now.key.now.vocabularies name.now }
        ensures named { IfSome result (λ r. builtin_text r.entry.keyword ≡ name.now) }
    {
        builtin_row(self.draft(), &self.key.vocabularies, name)
    }

    /// Returns whether keywords beside a `$ref` apply: from draft 2019-09 on.
    pub fn supports_adjacent_validation(&self) -> bool
        ensures beside { result ≡ not (ref_stands_alone (draft_here self.now)) }
    {
        !self.key.draft.is_before_2019_09()
    }

    /// Returns the value of a `$ref` that overrides its siblings, if any.
    pub fn lone_reference<'v>(&self, members: &'v Map<String, Value>) -> Option<&'v Value>
        ensures alone { value_read result ≡ lone_reference self.now members.now.entries }
    {
        if self.supports_adjacent_validation() {
            None
        } else {
            members.get("$ref")
        }
    }

    /// Returns whether a number such as 1.0 is an integer: from draft 6 on.
    pub fn supports_integer_valued_numbers(&self) -> bool
        ensures integers { result ≡ integer_valued_numbers (draft_here self.now) }
    {
        match self.key.draft {
            Draft::Draft4 => false,
            _ => true,
        }
    }

    /// Returns whether the schema's vocabularies require format validation.
    pub fn asserts_formats_by_dialect(&self) -> bool
        ensures asserts { result ≡ asserts_formats self.now.key.now.vocabularies }
    {
        let vocabularies = &self.key.vocabularies;
        vocabularies.contains(&Vocabulary::FormatAssertion)
            || vocabularies.contains(&Vocabulary::Format)
    }

    /// Returns whether formats are validated, as the option says.
    ///
    /// If the option is not set, they are in the drafts in which `$ref` overrides its siblings, and
    /// in later ones if the schema's vocabularies require it.
    pub fn validates_formats_by_default(&self) -> bool
        ensures formats { result ≡ validates_formats self.now }
    {
        match self.options.formats {
            Some(checked) => checked,
            None => self.key.draft.is_before_2019_09() || self.asserts_formats_by_dialect(),
        }
    }
}
