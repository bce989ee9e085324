//! The states of a run: entering resources.
ghost use Rattle.std.specs.Prelude.{◌≡◌, nat_eq, option_map, slice_get, string_bytes};
ghost use Rattle.std.specs.List.{list_any};
ghost use Rattle.serde_json.specs.View.{view};
ghost use Rattle.schema_drafts.specs.KeywordViews.{draft_of};
ghost use Rattle.schema_traits.specs.ResolverViews.{place_of};
ghost use Rattle.standard_subschemas.specs.Refusals.{RefusesWith};
ghost use Rattle.standard_resolver.specs.Dialects.{schema_of, text_or_none, unknown_meta};
ghost use Rattle.standard_resolver.specs.DocumentStates.{enter, entered, entered_below, entered_by, entered_inner, entered_root};
ghost use Rattle.standard_resolver.specs.DocumentStates.{no_identified};
ghost use Rattle.standard_resolver.specs.DocumentStates.{uri_of_document};
ghost use Rattle.standard_resolver.specs.DocumentViews.{held, point_of};
ghost use Rattle.schema_traits.specs.Readings.{value_read};
ghost use Rattle.schema_traits.specs.Showing.{Shows, Agrees};

use crate::dialects::unknown_meta;
use crate::documents::Documents;
use crate::resolver::DocumentState;
use crate::resources::Resources;
use schema_drafts::Draft;
use schema_reports::OutOfMemory;
use schema_traits::{LookupError, SchemaPlace};
use serde_json::Value;
use standard_subschemas::{Rule, identifier, own_uri, refusal, root_base, text_member};
use std::alloc::Global;
use std::rc::{Rc, RcStr};

fn has_number(numbers: &[usize], number: usize) -> bool
    ensures has { result ≡ list_any (nat_eq number) numbers.now }
{
    for other in numbers {
        if number == *other {
            return true;
        }
    }
    false
}

/// Returns the state after a resource is entered.
///
/// A resource that was not entered before is added at the end. If nothing changes, the state is
/// shared.
///
/// # Errors
///
/// Out of memory.
pub fn enter(
    alloc: Global,
    state: &DocumentState,
    number: usize,
    uri: &str,
) -> Result<DocumentState, OutOfMemory>
    ensures entered { Shows point_of result (enter number uri.now (point_of state.now)) }
{
    if state.base.as_str() == uri && has_number(&state.entered, number) {
        return state.clone();
    }
    let mut entered = state.entered.as_ref().clone()?;
    if !has_number(&entered, number) {
        entered.push(number)?;
    }
    let base = RcStr::from_str(alloc, uri)?;
    let entered = Rc::new(alloc, entered)?;
    Ok(DocumentState { base, entered })
}

fn no_identified(alloc: Global, id: &str) -> LookupError
    ensures refused { RefusesWith (no_identified id.now) result }
{
    let text = "this resolver finds no resource of its own for the identifier ";
    refusal(alloc, text, id)
}

/// Makes the error of a schema whose `$schema` is not known.
fn unknown_schema(alloc: Global, schema: &Value) -> LookupError
    ensures refused { RefusesWith (unknown_meta (text_or_none (schema_of (view schema.now)))) result }
{
    unknown_meta(alloc, text_member(schema, "$schema").unwrap_or(""))
}

/// Enters the resource with a URI, if it begins at a place.
///
/// `id` is the identifier of the schema there.
fn entered_by(
    alloc: Global,
    resources: &Resources<'_>,
    place: &SchemaPlace,
    id: &str,
    state: &DocumentState,
    uri: Option<String>,
) -> Result<DocumentState, LookupError>
    ensures entered { Agrees point_of result (entered_by resources.now (place_of place.now) id.now
        (point_of state.now) (option_map string_bytes uri)) }
{
    let Some(uri) = uri else {
        return Err(no_identified(alloc, id));
    };
    match resources.number_at(place, uri.as_str()) {
        Some(number) => Ok(enter(alloc, state, number, uri.as_str())?),
        None => Err(no_identified(alloc, id)),
    }
}

/// Returns the state inside a schema below a document's root.
///
/// # Errors
///
/// Out of memory, or the schema has an identifier, but no resource with its URI begins at the
/// place, or its `$schema` is not known.
pub fn entered_below(
    alloc: Global,
    resources: &Resources<'_>,
    state: DocumentState,
    draft: Draft,
    place: &SchemaPlace,
    schema: &Value,
) -> Result<DocumentState, LookupError>
    ensures entered { Agrees point_of result (entered_below resources.now (point_of state) (draft_of draft)
        (place_of place.now) (view schema.now)) }
{
    let Some(id) = identifier(draft, schema) else {
        return Ok(state);
    };
    if resources.reading().is_refused(draft) {
        return Err(unknown_schema(alloc, schema));
    }
    let uri = own_uri(alloc, resources.rule(), state.base.as_str(), id)?;
    entered_by(alloc, resources, place, id, &state, uri)
}

/// Returns the state inside a schema to which a pointer passes.
///
/// `before` is the state before the pointer, and `state` that in the resource around the schema. By
/// the standard's rule the pointer enters the innermost resource alone.
///
/// # Errors
///
/// Out of memory, or the schema has an identifier, but no resource with its URI begins at the
/// place, or its `$schema` is not known.
pub fn entered_inner(
    alloc: Global,
    resources: &Resources<'_>,
    before: &DocumentState,
    state: DocumentState,
    draft: Draft,
    place: &SchemaPlace,
    schema: &Value,
) -> Result<DocumentState, LookupError>
    ensures entered { Agrees point_of result (entered_inner resources.now (point_of before.now) (point_of state) (draft_of draft)
        (place_of place.now) (view schema.now)) }
{
    let Some(id) = identifier(draft, schema) else {
        return Ok(state);
    };
    if resources.reading().is_refused(draft) {
        return Err(unknown_schema(alloc, schema));
    }
    let rule = resources.rule();
    let uri = own_uri(alloc, rule, state.base.as_str(), id)?;
    match rule {
        Rule::Narrow => entered_by(alloc, resources, place, id, &state, uri),
        Rule::Standard => entered_by(alloc, resources, place, id, before, uri),
    }
}

/// Returns the base inside the document with a number, whose root is `schema`.
fn uri_of_document(
    alloc: Global,
    rule: Rule,
    documents: &Documents<'_>,
    number: usize,
    draft: Draft,
    schema: &Value,
) -> Result<Option<String>, OutOfMemory>
    ensures uri { Shows (option_map string_bytes) result
        (uri_of_document rule (draft_of draft) (view schema.now) (slice_get (held documents.now) number)) }
{
    match documents.uri_of(number) {
        Some(uri) => Ok(Some(root_base(alloc, rule, uri, draft, schema)?)),
        None => Ok(None),
    }
}

fn entered_root(
    alloc: Global,
    documents: &Documents<'_>,
    resources: &Resources<'_>,
    state: DocumentState,
    draft: Draft,
    place: &SchemaPlace,
    schema: &Value,
) -> Result<DocumentState, LookupError>
    ensures entered { Agrees point_of result (entered_root resources.now (held documents.now) (point_of state)
        (draft_of draft) (place_of place.now) (view schema.now)) }
{
    let Some(id) = identifier(draft, schema) else {
        return Ok(state);
    };
    if resources.reading().is_refused(draft) {
        return Err(unknown_schema(alloc, schema));
    }
    let rule = resources.rule();
    let uri = uri_of_document(alloc, rule, documents, place.document, draft, schema)?;
    entered_by(alloc, resources, place, id, &state, uri)
}

/// Returns the state inside the value at a place.
///
/// # Errors
///
/// Out of memory, or the schema has an identifier, but no resource with its URI begins at the
/// place, or its `$schema` is not known.
pub fn entered(
    alloc: Global,
    documents: &Documents<'_>,
    resources: &Resources<'_>,
    state: &DocumentState,
    draft: Draft,
    place: &SchemaPlace,
    value: Option<&Value>,
) -> Result<DocumentState, LookupError>
    ensures entered { Agrees point_of result (entered resources.now (held documents.now) (point_of state.now)
        (draft_of draft) (place_of place.now) (value_read value.entry)) }
{
    let state = state.clone()?;
    match value {
        None => Ok(state),
        Some(schema) => {
            if place.path.len() == 0 {
                entered_root(alloc, documents, resources, state, draft, place, schema)
            } else {
                entered_below(alloc, resources, state, draft, place, schema)
            }
        }
    }
}
