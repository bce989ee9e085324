//! The embedded resources of a document.
ghost use Rattle.std.specs.Prelude.{◌≡◌, map, OnOk};
ghost use Rattle.schema_drafts.specs.KeywordViews.{draft_of};
ghost use Rattle.schema_keys.specs.CutViews.{cut_of};
ghost use Rattle.schema_keys.specs.CheckHere.{AddsCuts, all_cuts_at, has_identifier, is_own_resource, own_draft};
ghost use Rattle.schema_traits.specs.Showing.{Shows};
ghost use Rattle.schema_traits.specs.ResolverViews.{IsReadAt};

use crate::check::SchemaCheck;
use schema_drafts::Draft;
use schema_reports::OutOfMemory;
use schema_traits::{MetaValidators, Resolver, SchemaPlace};
use serde_json::Value;

/// An embedded resource, which is cut out of the document around it.
#[derive(Drop)]
pub(crate) struct Cut {
    pub place: SchemaPlace,
    pub draft: Draft,
}

impl<'p, R: Resolver, V: MetaValidators> SchemaCheck<'p, R, V> {
    /// Returns the draft of a schema in a schema of this draft.
    ///
    /// A missing value counts as null.
    fn own_draft(&self, draft: Draft, schema: Option<&Value>) -> Draft
        ensures own { draft_of result ≡ own_draft R.Resolver self.now draft schema.entry }
    {
        match schema {
            Some(schema) => self.resolver.detect(draft, schema),
            None => self.resolver.detect(draft, &Value::Null),
        }
    }

    /// Returns whether a schema has an identifier in this draft.
    ///
    /// A missing value counts as null.
    fn has_identifier(&self, draft: Draft, schema: Option<&Value>) -> bool
        ensures identified { result ≡ has_identifier R.Resolver self.now draft schema.entry }
    {
        match schema {
            Some(schema) => self.resolver.id(draft, schema).is_some(),
            None => self.resolver.id(draft, &Value::Null).is_some(),
        }
    }

    /// Returns whether a schema is an embedded resource of a document.
    ///
    /// It is if its own draft is known and differs from the document's, and it has an identifier,
    /// in its own draft or in that of the schema around it.
    fn is_embedded(
        &self,
        document: Draft,
        around: Draft,
        own: Draft,
        schema: Option<&Value>,
    ) -> bool
        ensures embedded { result ≡ is_own_resource R.Resolver self.now document around own schema.entry }
    {
        own != document
            && own != Draft::Unknown
            && (self.has_identifier(around, schema) || self.has_identifier(own, schema))
    }

    /// Appends the outermost embedded resources below a schema with this value.
    fn find_cuts(
        &self,
        document: Draft,
        draft: Draft,
        place: &SchemaPlace,
        schema: Option<&Value>,
        cuts: &mut Vec<Cut>,
    ) -> Result<(), OutOfMemory>
        requires read { IsReadAt (R.resolving self.now.resolver.now) place.now schema }
        ensures found { OnOk result (AddsCuts R.Resolver self.now document draft place.now cuts.old.items cuts.new.items) }
    {
        for below in &self
            .resolver
            .subschemas_read(self.alloc, draft, place, schema)?
        {
            let own = self.own_draft(draft, below.value);
            if self.is_embedded(document, draft, own, below.value) {
                let place = below.place.clone()?;
                cuts.push(Cut { place, draft: own })?;
            } else {
                self.find_cuts(document, own, &below.place, below.value, cuts)?;
            }
        }
        Ok(())
    }

    /// Returns the outermost embedded resources of the document at a place.
    ///
    /// Searches for them only if a draft may change below it.
    pub(crate) fn cuts(&self, draft: Draft, place: &SchemaPlace) -> Result<Vec<Cut>, OutOfMemory>
        ensures cuts { Shows (λ v. map cut_of v.items) result (all_cuts_at R.Resolver self.now draft place.now) }
    {
        let mut cuts = Vec::new(self.alloc);
        let schema = self.resolver.value(place);
        if !self.resolver.may_change_draft(draft, place, schema) {
            return Ok(cuts);
        }
        self.find_cuts(draft, draft, place, schema, &mut cuts)?;
        Ok(cuts)
    }
}
