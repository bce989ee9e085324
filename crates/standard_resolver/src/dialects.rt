//! The dialects of documents, and of the resources in them.
//!
//! The `$schema` of a root names a draft of the standard, or a document that is supplied as a
//! meta-schema. Then the draft is the one that the meta-schema names.
ghost use Rattle.std.specs.Prelude.{◌≡◌, map, option_map};
ghost use Rattle.std.specs.HashMap.{get_by_text};
ghost use Rattle.serde_json.specs.View.{view};
ghost use Rattle.schema_drafts.specs.KeywordViews.{draft_of};
ghost use Rattle.schema_traits.specs.Readings.{text_read};
ghost use Rattle.schema_traits.specs.Showing.{Agrees, Shows, Yields};
ghost use Rattle.standard_subschemas.specs.DocumentKeys.{IsNumbered};
ghost use Rattle.standard_subschemas.specs.Refusals.{RefusesWith};
ghost use Rattle.standard_resolver.specs.Dialects as spec;
ghost use Rattle.standard_resolver.specs.Dialects.{detected, dialect_if, dialect_inside, draft_declared, draft_named, draft_said, draft_within, is_refused};
ghost use Rattle.standard_resolver.specs.Dialects.{meta_named, meta_number, number_under, own_key, root_by, root_dialect, unknown_draft};
ghost use Rattle.standard_resolver.specs.Dialects.{unknown_meta, uri_key};
ghost use Rattle.standard_resolver.specs.DialectViews.{dialect_of, meta_seen};
ghost use Rattle.standard_resolver.specs.MetaVocabularies.{draft_as_meta};
ghost use Rattle.standard_resolver.specs.DocumentViews.{document_under, held};

use crate::documents::Documents;
use schema_drafts::Draft;
use schema_reports::OutOfMemory;
use schema_traits::LookupError;
use serde_json::Value;
use standard_dialects::standard_draft;
use standard_subschemas as narrow;
use standard_subschemas::{
    Rule, add_number, fragment_of, identifier, refusal, text_member, uri_of, without_fragment,
};
use std::alloc::Global;
use std::collections::HashMap;
use std::marker::Model;

/// A draft, and the `$schema` that is in force.
#[derive(Clone, Copy)]
pub struct Dialect<'v> {
    pub draft: Draft,
    pub named: Option<&'v str>,
}

/// What is read of a document that may be a meta-schema.
///
/// That is its URI, the URI that its root's identifier means, and its root's `$schema`.
#[derive(Drop)]
pub struct Meta<'a> {
    pub uri: String,
    pub own: Option<String>,
    pub named: Option<&'a str>,
}

/// How documents are read.
///
/// They are read by a rule. The first document is read in the root's draft, if that is given,
/// whatever its `$schema` says; one without `$schema` in the default draft. A `$schema` may name one
/// of the meta-schemas. Contracts see these as data.
#[derive(Drop)]
pub struct Reading<'a> {
    rule: Rule,
    root_draft: Option<Draft>,
    default_draft: Draft,
    metas: Vec<Meta<'a>>,
    // Maps each URI to the number of the first document that is supplied under it, and of the first
    // whose root's identifier means it.
    uris: HashMap<String, usize>,
    owns: HashMap<String, usize>,
}

impl<'a> Model for Reading<'a> {
    ghost use Rattle.std.specs.Prelude.{map, option_map};
    ghost use Rattle.std.specs.HashMap.{get_by_text};
    ghost use Rattle.schema_drafts.specs.KeywordViews.{draft_of};
    ghost use Rattle.standard_subschemas.specs.DocumentKeys.{IsNumbered};
    ghost use Rattle.standard_resolver.specs.Dialects.{Reading as reading, own_key, uri_key};
    ghost use Rattle.standard_resolver.specs.DialectViews.{meta_seen};

    ghost Value = { reading };

    ghost view = { λ r. record {
      rule = r.rule;
      root_draft = option_map draft_of r.root_draft;
      default_draft = draft_of r.default_draft;
      metas = map meta_seen r.metas.items;
    } };

    ghost invariant = { λ r. IsNumbered (map uri_key (map meta_seen r.metas.items)) (get_by_text r.uris)
        × IsNumbered (map own_key (map meta_seen r.metas.items)) (get_by_text r.owns) };
}

/// Returns the draft that a `$schema` names by a standard's URI, or else a default one.
fn draft_said(default: Draft, named: Option<&str>) -> Draft
    ensures draft { draft_of result ≡ draft_said (draft_of default) (text_read named.entry) }
{
    match named {
        None => default,
        Some(uri) => standard_draft(uri),
    }
}

/// Returns a document as a meta-schema.
fn meta_of<'a>(
    alloc: Global,
    default: Draft,
    uri: &str,
    document: &'a Value,
) -> Result<Meta<'a>, OutOfMemory>
    ensures meta { Shows meta_seen result (spec.meta_of (draft_of default) (document_under uri.now document.now)) }
{
    let named = text_member(document, "$schema");
    let draft = draft_said(default, named);
    let around = without_fragment(uri);
    Ok(Meta {
        uri: String::from_str(alloc, around)?,
        own: uri_of(alloc, Rule::Standard, around, draft, document)?,
        named,
    })
}

/// Returns the documents as meta-schemas, in their order.
fn metas_of_all<'a>(
    alloc: Global,
    default: Draft,
    documents: &Documents<'a>,
) -> Result<Vec<Meta<'a>>, OutOfMemory>
    ensures metas { Shows (λ v. map meta_seen v.items) result (map (spec.meta_of (draft_of default)) (held documents.now)) }
{
    let mut metas = Vec::new(alloc);
    let uri = documents.uri.as_str();
    metas.push(meta_of(alloc, default, uri, documents.root)?)?;
    for other in &documents.others {
        let uri = other.uri.as_str();
        metas.push(meta_of(alloc, default, uri, other.value)?)?;
    }
    Ok(metas)
}

/// Returns the documents that may be meta-schemas.
///
/// By the narrow rule there are none.
fn metas_of<'a>(
    alloc: Global,
    rule: Rule,
    default: Draft,
    documents: &Documents<'a>,
) -> Result<Vec<Meta<'a>>, OutOfMemory>
    ensures metas { Shows (λ v. map meta_seen v.items) result (spec.metas_of rule (draft_of default) (held documents.now)) }
{
    match rule {
        Rule::Narrow => Ok(Vec::new(alloc)),
        Rule::Standard => metas_of_all(alloc, default, documents),
    }
}

fn own_key<'m>(meta: &'m Meta<'_>) -> Option<&'m str>
    ensures key { text_read result ≡ own_key (meta_seen meta.now) }
{
    match &meta.own {
        Some(uri) => Some(uri.as_str()),
        None => None,
    }
}

/// Returns how documents are read.
///
/// # Errors
///
/// Out of memory.
pub fn reading_of<'a>(
    alloc: Global,
    rule: Rule,
    root_draft: Option<Draft>,
    default_draft: Draft,
    documents: &Documents<'a>,
) -> Result<Reading<'a>, OutOfMemory>
    ensures reading { Yields result (spec.reading_of rule (option_map draft_of root_draft) (draft_of default_draft) (held documents.now)) }
{
    let metas = metas_of(alloc, rule, default_draft, documents)?;
    let mut uris = HashMap::new(alloc);
    let mut owns = HashMap::new(alloc);
    for (number, meta) in metas.iter().enumerate() {
        add_number(alloc, &mut uris, Some(meta.uri.as_str()), number)?;
        add_number(alloc, &mut owns, own_key(meta), number)?;
    }
    Ok(Reading {
        rule,
        root_draft,
        default_draft,
        metas,
        uris,
        owns,
    })
}

/// Makes the error of a `$schema` whose meta-schema is not at hand.
pub fn unknown_meta(alloc: Global, uri: &str) -> LookupError
    ensures refused { RefusesWith (unknown_meta uri.now) result }
{
    let text =
        "this resolver does not know this meta-schema (supply it as a document, or set the draft): ";
    refusal(alloc, text, uri)
}

impl<'a> Reading<'a> {
    /// Returns the rule.
    pub fn rule(&self) -> Rule
        ensures rule { result ≡ self.now.rule }
    {
        self.rule
    }

    /// Returns the number of the meta-schema under a URI.
    fn number_under(&self, uri: &str) -> Option<usize>
        ensures number { result ≡ number_under uri.now self.now.metas }
    {
        match self.uris.get(uri) {
            Some(number) => Some(*number),
            None => self.owns.get(uri).copied(),
        }
    }

    /// Returns the number of the meta-schema that a `$schema` names.
    pub fn meta_number(&self, uri: &str) -> Option<usize>
        ensures number { result ≡ meta_number uri.now self.now.metas }
    {
        if !fragment_of(uri).is_empty() {
            return None;
        }
        self.number_under(without_fragment(uri))
    }

    fn meta_named(&self, uri: &str) -> Option<&Meta<'a>>
        ensures meta { option_map (λ m. meta_seen m.now) result ≡ meta_named uri.now self.now.metas }
    {
        match self.meta_number(uri) {
            Some(number) => self.metas.get(number),
            None => None,
        }
    }

    /// Returns the draft that a `$schema` names, if at most so many meta-schemas are followed.
    #[tactic(auto, using(crate::proofs::NamedDrafts::unrolled))]
    fn draft_within(&self, follows: usize, uri: &str) -> Draft
        ensures draft { draft_of result ≡ draft_within self.now follows uri.now }
    {
        if follows == 0 {
            return standard_draft(uri);
        }
        match standard_draft(uri) {
            Draft::Unknown => {
                let Some(meta) = self.meta_named(uri) else {
                    return Draft::Unknown;
                };
                match meta.named {
                    Some(next) => self.draft_within(follows - 1, next),
                    None => self.default_draft,
                }
            }
            draft => draft,
        }
    }

    /// Returns the draft that a `$schema` names.
    ///
    /// It is unknown if a meta-schema is missing, or if the meta-schemas lead back to one of them.
    pub fn draft_named(&self, uri: &str) -> Draft
        ensures draft { draft_of result ≡ draft_named self.now uri.now }
    {
        self.draft_within(self.metas.len(), uri)
    }

    /// Returns the draft of a document as a meta-schema.
    pub fn draft_as_meta(&self, document: &Value) -> Draft
        ensures draft { draft_of result ≡ draft_as_meta self.now (view document.now) }
    {
        match text_member(document, "$schema") {
            None => self.default_draft,
            Some(uri) => self.draft_named(uri),
        }
    }

    /// Returns the dialect that a `$schema` names, if the schema has an identifier in its draft.
    fn dialect_if<'v>(&self, around: Dialect<'v>, uri: &'v str, schema: &'v Value) -> Dialect<'v>
        ensures dialect { dialect_of result ≡ dialect_if (dialect_of around.entry) (draft_named self.now uri.now) uri.now (view schema.now) }
    {
        let draft = self.draft_named(uri);
        if identifier(draft, schema).is_none() {
            return around;
        }
        Dialect {
            draft,
            named: Some(uri),
        }
    }

    /// Returns the dialect of a value inside a schema of a dialect.
    ///
    /// By the standard's rule it is the one that the value's `$schema` names if the value is the
    /// root of a resource, and else the dialect around it.
    pub fn dialect_inside<'v>(&self, around: Dialect<'v>, schema: &'v Value) -> Dialect<'v>
        ensures dialect { dialect_of result ≡ dialect_inside self.now (dialect_of around.entry) (view schema.now) }
    {
        match self.rule {
            Rule::Narrow => Dialect {
                draft: narrow::detected(around.draft, schema),
                named: around.named,
            },
            Rule::Standard => match text_member(schema, "$schema") {
                None => around,
                Some(uri) => self.dialect_if(around, uri, schema),
            },
        }
    }

    /// Returns the draft of a value inside a schema of a draft.
    pub fn detected(&self, draft: Draft, schema: &Value) -> Draft
        ensures draft { draft_of result ≡ detected self.now (draft_of draft) (view schema.now) }
    {
        let around = Dialect { draft, named: None };
        self.dialect_inside(around, schema).draft
    }

    /// Returns the dialect that a root names, or else that of a default draft.
    fn root_by<'v>(&self, default: Draft, root: &'v Value) -> Dialect<'v>
        ensures dialect { dialect_of result ≡ root_by self.now.rule self.now (draft_of default) (view root.now) }
    {
        match self.rule {
            Rule::Narrow => Dialect {
                draft: narrow::detected(default, root),
                named: None,
            },
            Rule::Standard => match text_member(root, "$schema") {
                None => Dialect {
                    draft: default,
                    named: None,
                },
                Some(uri) => Dialect {
                    draft: self.draft_named(uri),
                    named: Some(uri),
                },
            },
        }
    }

    /// Returns the dialect of the root of the document with a number.
    pub fn root_dialect<'v>(&self, number: usize, root: &'v Value) -> Dialect<'v>
        ensures dialect { dialect_of result ≡ root_dialect self.now number (view root.now) }
    {
        match self.root_draft {
            Some(draft) if number == 0 => Dialect { draft, named: None },
            _ => self.root_by(self.default_draft, root),
        }
    }

    /// Returns whether the resources of a draft are refused.
    pub fn is_refused(&self, draft: Draft) -> bool
        ensures refused { result ≡ is_refused self.now.rule (draft_of draft) }
    {
        match self.rule {
            Rule::Narrow => false,
            Rule::Standard => match draft {
                Draft::Unknown => true,
                _ => false,
            },
        }
    }

    /// Returns the draft that a root declares.
    ///
    /// # Errors
    ///
    /// Out of memory, or the draft is unknown.
    pub fn draft_declared(&self, alloc: Global, root: &Value) -> Result<Draft, LookupError>
        ensures draft { Agrees draft_of result (draft_declared self.now (view root.now)) }
    {
        let dialect = self.root_by(Draft::Draft202012, root);
        match dialect.draft {
            Draft::Unknown => Err(self.unknown_draft(alloc, dialect.named)),
            draft => Ok(draft),
        }
    }

    /// Makes the error of a root whose `$schema` is not known.
    fn unknown_draft(&self, alloc: Global, named: Option<&str>) -> LookupError
        ensures refused { RefusesWith (unknown_draft self.now.rule (text_read named.entry)) result }
    {
        match self.rule {
            Rule::Narrow => {
                let text = "this resolver does not know the draft of the schema";
                refusal(alloc, text, "")
            }
            Rule::Standard => unknown_meta(alloc, named.unwrap_or("")),
        }
    }
}
