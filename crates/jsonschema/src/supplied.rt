//! Builds under the check by a meta-schema that is among the documents.
ghost use Rattle.std.specs.Prelude.{◌≡◌, IfErr, IfOk, IfSome, find, map, option_map, string_bytes};
ghost use Rattle.serde_json.specs.View.{view};
ghost use Rattle.schema_drafts.specs.KeywordViews.{draft_of};
ghost use Rattle.schema_traits.specs.Showing.{Shows, Yields};
ghost use Rattle.standard_resolver.specs.Dialects.{draft_said, schema_of, text_or_none};
ghost use Rattle.standard_resolver.specs.DocumentViews.{given_of};
ghost use Rattle.jsonschema.specs.Built.{IsBuiltFrom, RefusesFrom};
ghost use Rattle.jsonschema.specs.Checked.{IsChecked, RefusesChecked};
ghost use Rattle.jsonschema.specs.Supplied.{checks_beside, identifies, is_same, is_under, meta_for, meta_options, named_by, names, own_uri};

use crate::build_options::BuildOptions;
use crate::building::{Built, StandardValidator, validator_in};
use crate::error::{BuildError, error_of_meta};
use meta_checker::Checker;
use schema_engine::{
    Draft, KeywordTable, MetaValidators, OutOfMemory, Resolver, Validate, ValidationError,
    ValidationOptions,
};
use serde_json::Value;
use standard_dialects::standard_draft;
use standard_keywords::{StandardKeyword, StandardTable};
use standard_meta::{MetaSchemas, StandardChecker, StandardFractions};
use standard_resolver::{Document, DocumentResolver, Rule};
use standard_subschemas::{fragment_of, text_member, uri_of, without_fragment};
use std::alloc::Global;

/// Returns whether the `$schema` of a document is this text.
fn names(named: &str, document: &Value) -> bool
    ensures names { result ≡ names named.now (view document.now) }
{
    match text_member(document, "$schema") {
        Some(uri) => uri == named,
        None => false,
    }
}

/// The check by a supplied meta-schema of the documents that name it.
///
/// The standard's meta-schemas check the others.
#[derive(Drop)]
struct SuppliedCheck<'m> {
    metas: &'m MetaSchemas,
    named: &'m str,
    checker: StandardChecker,
}

impl MetaValidators for SuppliedCheck<'_> {
    ghost use Rattle.meta_checker.specs.DraftChecks.{checked_by};
    ghost use Rattle.standard_meta.specs.DraftMeanings.{regexes};
    ghost use Rattle.jsonschema.specs.Supplied.{checked_beside};

    ghost checked = { λ m. checked_beside ⟦<StandardKeyword as Validate>⟧ regexes m.named.now m.checker
        (checked_by ⟦<StandardKeyword as Validate>⟧ regexes m.metas.now.checkers) };

    fn check<'v>(
        &self,
        alloc: Global,
        draft: Draft,
        schema: &'v Value,
    ) -> Result<Option<ValidationError<'v>>, OutOfMemory> {
        if names(self.named, schema) {
            self.checker.check(alloc, schema)
        } else {
            self.metas.check(alloc, draft, schema)
        }
    }
}

/// Returns the `$schema` of a document, or nothing.
fn named_in(document: &Value) -> &str
    ensures named { result.now ≡ text_or_none (schema_of (view document.now)) }
{
    text_member(document, "$schema").unwrap_or("")
}

/// Returns a checker with the validator of a meta-schema.
///
/// Returns `None` if a keyword of the meta-schema shows a fraction, or a pattern has a back
/// reference.
fn checker_of(built: Built) -> Option<StandardChecker>
    ensures is { IfSome result (λ c. c ≡ built.validator) }
{
    let Built { validator, matcher } = built;
    Checker::by_matcher(&StandardFractions {}, &matcher, validator)
}

/// Returns the draft that the `$schema` of a document names by a standard's URI, or a default one.
fn draft_said(default: Draft, document: &Value) -> Draft
    ensures draft { draft_of result ≡ draft_said (draft_of default) (schema_of (view document.now)) }
{
    match text_member(document, "$schema") {
        Some(uri) => standard_draft(uri),
        None => default,
    }
}

/// Returns the URI that the identifier of a document's root means, if it has one.
fn own_uri(
    alloc: Global,
    default: Draft,
    document: &Document<'_>,
) -> Result<Option<String>, OutOfMemory>
    ensures own { Shows (option_map string_bytes) result (own_uri (draft_of default) (given_of document.now)) }
{
    let around = without_fragment(document.uri.as_str());
    let draft = draft_said(default, document.value);
    uri_of(alloc, Rule::Standard, around, draft, document.value)
}

/// Returns whether a text is this URI.
fn is_same(own: Option<String>, uri: &str) -> bool
    ensures same { result ≡ is_same uri.now (option_map string_bytes own) }
{
    match own {
        Some(own) => own.as_str() == uri,
        None => false,
    }
}

/// Returns whether the identifier of a document's root means a URI.
fn identifies(
    alloc: Global,
    default: Draft,
    document: &Document<'_>,
    uri: &str,
) -> Result<bool, OutOfMemory>
    ensures identifies { IfOk result (λ b. b ≡ identifies (draft_of default) uri.now (given_of document.now)) }
{
    Ok(is_same(own_uri(alloc, default, document)?, uri))
}

/// Returns the first document that is supplied under a URI.
fn supplied_under<'d, 'a>(documents: &'d [Document<'a>], uri: &str) -> Option<&'d Document<'a>>
    ensures found { option_map (λ d. given_of d.now) result ≡ find (is_under uri.now) (map given_of documents.now) }
{
    for document in documents {
        if without_fragment(document.uri.as_str()) == uri {
            return Some(document);
        }
    }
    None
}

/// Returns the first document whose root's identifier means a URI.
fn identified<'d, 'a>(
    alloc: Global,
    default: Draft,
    documents: &'d [Document<'a>],
    uri: &str,
) -> Result<Option<&'d Document<'a>>, OutOfMemory>
    ensures found { IfOk result (λ o. option_map (λ d. given_of d.now) o
        ≡ find (identifies (draft_of default) uri.now) (map given_of documents.now)) }
{
    for document in documents {
        if identifies(alloc, default, document, uri)? {
            return Ok(Some(document));
        }
    }
    Ok(None)
}

/// Returns the document that a `$schema` names, if that is no standard's URI.
fn named_by<'d, 'a>(
    alloc: Global,
    default: Draft,
    documents: &'d [Document<'a>],
    named: &str,
) -> Result<Option<&'d Document<'a>>, OutOfMemory>
    ensures named { IfOk result (λ o. option_map (λ d. given_of d.now) o
        ≡ named_by (draft_of default) (map given_of documents.now) named.now) }
{
    if standard_draft(named) != Draft::Unknown || !fragment_of(named).is_empty() {
        return Ok(None);
    }
    let uri = without_fragment(named);
    match supplied_under(documents, uri) {
        Some(document) => Ok(Some(document)),
        None => identified(alloc, default, documents, uri),
    }
}

/// Returns a copy of a document; the value is borrowed.
fn copied<'a>(document: &Document<'a>) -> Result<Document<'a>, OutOfMemory>
    ensures copied { IfOk result (λ d. given_of d ≡ given_of document.now) }
{
    Ok(Document {
        uri: document.uri.clone()?,
        value: document.value,
    })
}

/// Returns a copy of each document.
fn copied_each<'a>(
    alloc: Global,
    documents: &[Document<'a>],
) -> Result<Vec<Document<'a>>, OutOfMemory>
    ensures copied { IfOk result (λ ds. map given_of ds.items ≡ map given_of documents.now) }
{
    let mut copies = Vec::new(alloc);
    for document in documents {
        copies.push(copied(document)?)?;
    }
    Ok(copies)
}

impl<'a> BuildOptions<'a> {
    /// Returns the supplied meta-schema that checks a schema, if there is one.
    fn meta_for(&self, schema: &Value) -> Result<Option<Document<'a>>, OutOfMemory>
        ensures meta { IfOk result (λ o. option_map given_of o ≡ meta_for self.now (view schema.now)) }
    {
        if !self.checks || self.draft.is_some() {
            return Ok(None);
        }
        let Some(named) = text_member(schema, "$schema") else {
            return Ok(None);
        };
        let default = self.default_draft.unwrap_or(Draft::Draft202012);
        match named_by(self.alloc, default, self.documents.as_slice(), named)? {
            Some(document) => Ok(Some(copied(document)?)),
            None => Ok(None),
        }
    }

    /// Returns the options by which a supplied meta-schema is built.
    fn meta_options(&self, meta: &Document<'a>) -> Result<BuildOptions<'a>, OutOfMemory>
        ensures options { Yields result (meta_options self.now (given_of meta.now)) }
    {
        Ok(BuildOptions {
            alloc: self.alloc,
            engine: ValidationOptions::new(self.alloc),
            draft: None,
            checks: true,
            uri: Some(meta.uri.clone()?),
            default_draft: self.default_draft,
            documents: copied_each(self.alloc, self.documents.as_slice())?,
        })
    }

    /// Builds under the checks of the schema, of which at most so many are by supplied meta-schemas.
    fn build_within(
        self,
        metas: &MetaSchemas,
        follows: usize,
        schema: &'a Value,
    ) -> Result<Built, BuildError>
        ensures built { IfOk result (λ b. IsChecked ⟦<DocumentResolver<'a> as Resolver>⟧ ⟦<StandardTable as KeywordTable<StandardKeyword>>⟧
            ⟦<StandardKeyword as Validate>⟧ metas.now.checkers self.entry schema.now b.validator) }
        ensures refused { IfErr result (RefusesChecked ⟦<DocumentResolver<'a> as Resolver>⟧ ⟦<StandardTable as KeywordTable<StandardKeyword>>⟧
            ⟦<StandardKeyword as Validate>⟧ metas.now.checkers self.entry schema.now) }
    {
        let Some(meta) = self.meta_for(schema)? else {
            return self.build_any(metas, schema);
        };
        if follows == 0 {
            return Err(BuildError::MetaSchemaUnfit { uri: meta.uri });
        }
        let options = self.meta_options(&meta)?;
        match options.build_within(metas, follows - 1, meta.value) {
            Ok(built) => match checker_of(built) {
                Some(checker) => self.build_beside_supplied(metas, schema, checker),
                None => Err(BuildError::MetaSchemaUnfit { uri: meta.uri }),
            },
            Err(fault) => Err(error_of_meta(meta.uri, fault)),
        }
    }

    /// Builds under the check by the meta-schema that the schema names, and by the standard's.
    fn build_beside_supplied(
        self,
        metas: &MetaSchemas,
        schema: &'a Value,
        checker: StandardChecker,
    ) -> Result<Built, BuildError>
        ensures built { IfOk result (λ b. IsBuiltFrom ⟦<DocumentResolver<'a> as Resolver>⟧ ⟦<StandardTable as KeywordTable<StandardKeyword>>⟧
            ⟦<StandardKeyword as Validate>⟧ (checks_beside ⟦<StandardKeyword as Validate>⟧ metas.now.checkers schema.now checker) self.entry schema.now b.validator) }
        ensures refused { IfErr result (RefusesFrom ⟦<DocumentResolver<'a> as Resolver>⟧ ⟦<StandardTable as KeywordTable<StandardKeyword>>⟧
            ⟦<StandardKeyword as Validate>⟧ (checks_beside ⟦<StandardKeyword as Validate>⟧ metas.now.checkers schema.now checker) self.entry schema.now) }
    {
        let check = SuppliedCheck {
            metas,
            named: named_in(schema),
            checker,
        };
        let built = self.build_any(&check, schema);
        drop(check);
        built
    }

    /// Builds a validator of a schema, which its meta-schemas check.
    pub(crate) fn build_checked(
        self,
        metas: &MetaSchemas,
        schema: &'a Value,
    ) -> Result<StandardValidator, BuildError>
        ensures built { IfOk result (IsChecked ⟦<DocumentResolver<'a> as Resolver>⟧ ⟦<StandardTable as KeywordTable<StandardKeyword>>⟧
            ⟦<StandardKeyword as Validate>⟧ metas.now.checkers self.entry schema.now) }
        ensures refused { IfErr result (RefusesChecked ⟦<DocumentResolver<'a> as Resolver>⟧ ⟦<StandardTable as KeywordTable<StandardKeyword>>⟧
            ⟦<StandardKeyword as Validate>⟧ metas.now.checkers self.entry schema.now) }
    {
        let follows = self.documents.len();
        match self.build_within(metas, follows, schema) {
            Ok(built) => Ok(validator_in(built)),
            Err(fault) => Err(fault),
        }
    }
}
