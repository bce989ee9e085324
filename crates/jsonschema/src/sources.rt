//! The schema and the documents that a validator is built from.
ghost use Rattle.std.specs.Prelude.{◌≡◌, ◌++◌, IfOk, map, OnOk};
ghost use Rattle.standard_resolver.specs.DocumentViews.{given_of};
ghost use Rattle.serde_json.specs.View.{view};
ghost use Rattle.schema_traits.specs.Showing.{Yields};
ghost use Rattle.jsonschema.specs.Sources.{values_of, with_documents};

use schema_engine::{Draft, OutOfMemory};
use serde_json::Value;
use standard_meta::MetaDocuments;
use standard_resolver::Document;
use std::alloc::Global;
use std::marker::Model;

/// A schema and the documents that its references may lead to.
///
/// Each document has its URI.
#[derive(Drop)]
pub(crate) struct Sources<'a> {
    pub(crate) schema: &'a Value,
    pub(crate) uri: Option<String>,
    pub(crate) root_draft: Option<Draft>,
    pub(crate) draft: Option<Draft>,
    pub(crate) documents: Vec<Document<'a>>,
}

impl<'a> Model for Sources<'a> {
    ghost use Rattle.std.specs.Prelude.{map, option_map, string_bytes};
    ghost use Rattle.std.specs.Coded.{codes};
    ghost use Rattle.serde_json.specs.contracts.value.Value as value;
    ghost use Rattle.schema_drafts.specs.KeywordViews.{draft_of};
    ghost use Rattle.standard_resolver.specs.DocumentViews.{given_of};
    ghost use Rattle.jsonschema.specs.Sources.{SchemaSources};

    ghost Value = { SchemaSources };

    ghost coded = { Prim.hlevel (codes, value.the_row.coded) };

    ghost view = { λ s. record {
      schema = s.schema.now;
      uri = option_map string_bytes s.uri;
      root_draft = option_map draft_of s.root_draft;
      draft = option_map draft_of s.draft;
      documents = map given_of s.documents.items;
    } };
}

fn add_meta_schemas<'a>(
    alloc: Global,
    metas: &'a MetaDocuments,
    documents: &mut Vec<Document<'a>>,
) -> Result<(), OutOfMemory>
    ensures added { OnOk result (map given_of documents.new.items ≡ map given_of documents.old.items ++ metas.now) }
{
    for meta in metas.documents() {
        documents.push(Document {
            uri: String::from_str(alloc, meta.uri)?,
            value: &meta.value,
        })?;
    }
    Ok(())
}

impl<'a> Sources<'a> {
    /// Adds the meta-schemas of the drafts and of the vocabularies.
    ///
    /// They come after the documents added so far. References find them under the URIs of the
    /// standard.
    ///
    /// # Errors
    ///
    /// Out of memory.
    pub(crate) fn with_meta_schemas(
        self,
        alloc: Global,
        metas: &'a MetaDocuments,
    ) -> Result<Sources<'a>, OutOfMemory>
        ensures documents { Yields result (with_documents self.entry metas.now) }
    {
        let mut sources = self;
        add_meta_schemas(alloc, metas, &mut sources.documents)?;
        Ok(sources)
    }

    // Returns the values of the schema and of the documents, the schema's first.
    pub(crate) fn values(&self, alloc: Global) -> Result<Vec<&'a Value>, OutOfMemory>
        ensures values { IfOk result (λ vs. map (λ v. view v.now) vs.items ≡ values_of self.now) }
    {
        let mut values = Vec::new(alloc);
        values.push(self.schema)?;
        for document in &self.documents {
            values.push(document.value)?;
        }
        Ok(values)
    }
}
