//! The meta-schemas as documents.
ghost use Rattle.std.specs.Prelude.{◌≡◌, IfOk, map};
ghost use Rattle.schema_drafts.specs.KeywordViews.{draft_of};
ghost use Rattle.meta_schemas.specs.MetaTexts.{schema_text, texts_of, vocabulary_texts, written};
ghost use Rattle.standard_meta.specs.MetaDocuments.{AddsRead, AreRead, given_of, known_drafts, read_of, reading_of, texts_of_each};

use crate::error::MetaError;
use meta_schemas::{MetaSchema, meta_schema, vocabulary_meta_schemas};
use schema_engine::Draft;
use serde_json::Value;
use std::alloc::Global;
use std::marker::Model;

/// A meta-schema that was read, and its URI.
#[derive(Drop)]
pub struct MetaDocument {
    pub uri: &'static str,
    pub value: Value,
}

/// The meta-schemas of all drafts and vocabularies, which references may lead to.
#[derive(Drop)]
pub struct MetaDocuments {
    documents: Vec<MetaDocument>,
}

impl Model for MetaDocuments {
    ghost use Rattle.std.specs.Prelude.{List, map};
    ghost use Rattle.std.specs.Coded.{codes};
    ghost use Rattle.serde_json.specs.contracts.value.Value as value;
    ghost use Rattle.standard_resolver.specs.ResolverDocuments.{GivenDocument};
    ghost use Rattle.standard_meta.specs.MetaDocuments.{given_of};

    ghost Value = { List GivenDocument };

    ghost coded = { Prim.hlevel (codes, value.the_row.coded) };

    ghost view = { λ m. map given_of m.documents.items };
}

/// The meta-schema of a draft, and those of its vocabularies.
#[derive(Drop)]
pub(crate) struct DraftDocuments {
    pub(crate) root: MetaDocument,
    pub(crate) others: Vec<MetaDocument>,
}

fn read(alloc: Global, schema: MetaSchema) -> Result<MetaDocument, MetaError>
    ensures read { IfOk result (λ d. read_of (given_of d) ≡ reading_of (written schema)) }
{
    Ok(MetaDocument {
        uri: schema.uri,
        value: Value::from_str(alloc, schema.text)?,
    })
}

fn add_each(
    alloc: Global,
    schemas: &[MetaSchema],
    documents: &mut Vec<MetaDocument>,
) -> Result<(), MetaError>
    ensures added { AddsRead result documents.old documents.new (map written schemas.now) }
{
    for schema in schemas {
        documents.push(read(alloc, *schema)?)?;
    }
    Ok(())
}

fn add_draft(
    alloc: Global,
    draft: Draft,
    documents: &mut Vec<MetaDocument>,
) -> Result<(), MetaError>
    ensures added { AddsRead result documents.old documents.new (texts_of (draft_of draft)) }
{
    documents.push(read(alloc, meta_schema(draft))?)?;
    add_each(alloc, vocabulary_meta_schemas(draft), documents)
}

/// Reads the meta-schema of a draft, and those of its vocabularies.
pub(crate) fn read_draft(alloc: Global, draft: Draft) -> Result<DraftDocuments, MetaError>
    ensures root { IfOk result (λ d. read_of (given_of d.root) ≡ reading_of (schema_text (draft_of draft))) }
    ensures others { IfOk result (λ d. AreRead (vocabulary_texts (draft_of draft)) (map given_of d.others.items)) }
{
    let root = read(alloc, meta_schema(draft))?;
    let mut others = Vec::new(alloc);
    add_each(alloc, vocabulary_meta_schemas(draft), &mut others)?;
    Ok(DraftDocuments { root, others })
}

impl MetaDocuments {
    /// Reads the meta-schemas.
    ///
    /// # Errors
    ///
    /// Out of memory. The other errors do not occur: each meta-schema is JSON.
    pub fn new(alloc: Global) -> Result<MetaDocuments, MetaError>
        ensures read { IfOk result (AreRead (texts_of_each known_drafts)) }
    {
        let mut documents = Vec::new(alloc);
        for draft in [
            Draft::Draft4,
            Draft::Draft6,
            Draft::Draft7,
            Draft::Draft201909,
            Draft::Draft202012,
        ] {
            add_draft(alloc, draft, &mut documents)?;
        }
        Ok(MetaDocuments { documents })
    }

    /// Returns the meta-schemas.
    ///
    /// The oldest draft's comes first. Behind a draft's meta-schema stand those of its vocabularies.
    pub fn documents(&self) -> &[MetaDocument]
        ensures documents { map given_of result.now ≡ self.now }
    {
        self.documents.as_slice()
    }
}
