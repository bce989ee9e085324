//! The vocabularies that meta-schemas put in force.
ghost use Rattle.std.specs.Prelude.{◌≡◌, IfOk, option_and_then, option_map, slice_get};
ghost use Rattle.serde_json.specs.View.{view};
ghost use Rattle.schema_drafts.specs.KeywordViews.{draft_of};
ghost use Rattle.schema_traits.specs.Showing.{Yields};
ghost use Rattle.standard_dialects.specs.ListedVocabularies.{HoldSameIf};
ghost use Rattle.standard_resolver.specs.DocumentResourceViews.{resource_of};
ghost use Rattle.standard_resolver.specs.DocumentStates.{resource_under};
ghost use Rattle.standard_resolver.specs.DocumentViews.{held, point_of};
ghost use Rattle.standard_resolver.specs.InForce as spec;
ghost use Rattle.standard_resolver.specs.InForce.{is_own_late, listed_by};
ghost use Rattle.standard_resolver.specs.MetaVocabularies.{AreListed, AreListedEach, listed_from};

use crate::dialects::Reading;
use crate::documents::Documents;
use crate::resolver::DocumentState;
use crate::resources::{Resource, Resources};
use schema_drafts::{Draft, VocabularySet};
use schema_reports::OutOfMemory;
use serde_json::Value;
use standard_dialects::{standard_draft, vocabularies_listed};
use standard_subschemas::Rule;
use std::alloc::Global;

/// Returns what a document puts in force as a meta-schema.
fn list_of(
    alloc: Global,
    reading: &Reading<'_>,
    document: &Value,
) -> Result<Option<VocabularySet>, OutOfMemory>
    ensures listed { IfOk result (λ vs. HoldSameIf vs (listed_from reading.now (view document.now))) }
{
    vocabularies_listed(alloc, reading.draft_as_meta(document), document)
}

/// Returns what each document puts in force as a meta-schema, in their order.
fn lists_of_all(
    alloc: Global,
    reading: &Reading<'_>,
    documents: &Documents<'_>,
) -> Result<Vec<Option<VocabularySet>>, OutOfMemory>
    ensures listed { IfOk result (λ lists. AreListedEach reading.now (held documents.now) lists.items) }
{
    let mut lists = Vec::new(alloc);
    lists.push(list_of(alloc, reading, documents.root)?)?;
    for other in &documents.others {
        lists.push(list_of(alloc, reading, other.value)?)?;
    }
    Ok(lists)
}

/// Returns what each document puts in force as a meta-schema.
///
/// By the narrow rule the list is empty.
///
/// # Errors
///
/// Out of memory.
pub fn lists_of(
    alloc: Global,
    reading: &Reading<'_>,
    documents: &Documents<'_>,
) -> Result<Vec<Option<VocabularySet>>, OutOfMemory>
    ensures listed { IfOk result (λ lists. AreListed reading.now (held documents.now) lists.items) }
{
    match reading.rule() {
        Rule::Narrow => Ok(Vec::new(alloc)),
        Rule::Standard => lists_of_all(alloc, reading, documents),
    }
}

/// Returns what the meta-schema with a number lists.
fn list_at(listed: &[Option<VocabularySet>], number: usize) -> Option<&VocabularySet>
    ensures listed { option_map (λ v. v.now) result ≡ option_and_then (λ vs. vs) (slice_get listed.now number) }
{
    match listed.get(number) {
        Some(vocabularies) => vocabularies.as_ref(),
        None => None,
    }
}

/// Returns what the meta-schema of a `$schema` lists, if it is a supplied one.
fn listed_by<'r>(
    reading: &Reading<'_>,
    listed: &'r [Option<VocabularySet>],
    uri: &str,
) -> Option<&'r VocabularySet>
    ensures listed { option_map (λ v. v.now) result ≡ listed_by listed.now reading.now uri.now }
{
    match standard_draft(uri) {
        Draft::Unknown => list_at(listed, reading.meta_number(uri)?),
        _ => None,
    }
}

/// Returns whether a resource is read in its own draft, and this has vocabularies.
fn is_own_late(draft: Draft, resource: &Resource) -> bool
    ensures own { result ≡ is_own_late (draft_of draft) (resource_of resource.now) }
{
    draft == resource.draft && !draft.is_before_2019_09()
}

/// Returns what the meta-schema of a resource lists.
fn listed_for<'r>(
    reading: &Reading<'_>,
    listed: &'r [Option<VocabularySet>],
    draft: Draft,
    resource: &Resource,
) -> Option<&'r VocabularySet>
    ensures listed { option_map (λ v. v.now) result ≡ spec.listed_for listed.now reading.now (draft_of draft) (resource_of resource.now) }
{
    if !is_own_late(draft, resource) {
        return None;
    }
    match &resource.named {
        Some(uri) => listed_by(reading, listed, uri.as_str()),
        None => None,
    }
}

/// Returns what the meta-schema lists that is in force in a state.
pub fn listed_here<'r>(
    resources: &Resources<'_>,
    listed: &'r [Option<VocabularySet>],
    state: &DocumentState,
    draft: Draft,
) -> Option<&'r VocabularySet>
    ensures listed { option_map (λ v. v.now) result ≡ option_and_then (spec.listed_for listed.now resources.now.reading (draft_of draft))
        (resource_under resources.now (point_of state.now).base) }
{
    let resource = resources.under(state.base.as_str())?;
    listed_for(resources.reading(), listed, draft, resource)
}

/// Returns a clone of vocabularies.
///
/// # Errors
///
/// Out of memory.
pub fn cloned(vocabularies: &VocabularySet) -> Result<VocabularySet, OutOfMemory>
    ensures same { Yields result vocabularies.now }
{
    vocabularies.clone()
}
