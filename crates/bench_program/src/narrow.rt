//! A resolver of one document by the narrow rule.
ghost use Rattle.std.specs.Prelude.{[], IfOk};
ghost use Rattle.serde_json.specs.View.{view};
ghost use Rattle.schema_drafts.specs.KeywordViews.{draft_of};
ghost use Rattle.standard_subschemas.specs.declared.rules.Rule.TheVariants.{Narrow};
ghost use Rattle.standard_subschemas.specs.SubschemaRules.{document_uri};
ghost use Rattle.standard_resolver.specs.ResolverAnswers.{HasRoot, FindsRoot};
ghost use Rattle.standard_resolver.specs.ResolverHolds.{Customs, Defaults, Drafts, GoesBy, Holds, IsUnder, Others};

use schema_drafts::{Draft, VocabularySet};
use schema_reports::OutOfMemory;
use serde_json::Value;
use standard_resolver::{Document, DocumentResolver, Rule};
use standard_subschemas::{detected, identifier, without_fragment};
use std::alloc::Global;

/// Makes a resolver of one document by the narrow rule, in a default draft.
///
/// The document is found under its root's identifier without the fragment, or under
/// `json-schema:///` if it has none. The vocabularies are required in every draft, beside the
/// draft's own.
///
/// # Errors
///
/// Out of memory.
pub fn narrow_resolver<'a>(
    alloc: Global,
    draft: Draft,
    document: &'a Value,
    vocabularies: VocabularySet,
) -> Result<DocumentResolver<'a>, OutOfMemory>
    ensures rule { GoesBy result Narrow }
    ensures document { Holds result document.now }
    ensures uri { IsUnder result (document_uri (draft_of draft) (view document.now)) }
    ensures alone { Others result [] }
    ensures draft { Defaults result (draft_of draft) }
    ensures drafts { Drafts result vocabularies }
    ensures custom { Customs result vocabularies }
    ensures root_value { IfOk result (HasRoot document.now) }
    ensures root { IfOk result FindsRoot }
{
    let uri = match identifier(detected(draft, document), document) {
        Some(uri) => String::from_str(alloc, without_fragment(uri))?,
        None => String::from_str(alloc, "json-schema:///")?,
    };
    let root = Document {
        uri,
        value: document,
    };
    let others = Vec::new(alloc);
    DocumentResolver::new(alloc, Rule::Narrow, draft, root, others, vocabularies)
}
