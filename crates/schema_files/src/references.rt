//! The references in a document.
ghost use Rattle.std.specs.Prelude.{◌≡◌, ◌++◌, ◌∷◌, [], IfOk, OnOk, map, string_bytes};
ghost use Rattle.serde_json.specs.View.{items_view, view};
ghost use Rattle.theory_definitions.specs.Instance.{to_item, to_member};
ghost use Rattle.schema_drafts.specs.KeywordViews.{draft_of};
ghost use Rattle.schema_traits.specs.Readings.{fields};
ghost use Rattle.schema_traits.specs.Showing.{Shows, Yields};
ghost use Rattle.schema_files.specs.References.{document_references, is_fragment, is_reference, item_references, member_references, own_reference};
ghost use Rattle.schema_files.specs.References.{references, target_of, text_reference};
ghost use Rattle.schema_files.specs.ReferenceViews.{AddsReferences, reference_of};

use schema_drafts::Draft;
use schema_reports::OutOfMemory;
use schema_traits::{SchemaPath, SchemaStep};
use serde_json::{Map, Value};
use standard_subschemas::{
    Rule, detected, normal_uri, or_base, resolve_uri, uri_of, without_fragment,
};
use std::alloc::Global;
use std::rc::RcStr;
use uri_references::resolve_normally;

/// A reference in a document.
#[derive(Drop)]
pub struct Reference {
    /// The place of the reference.
    pub path: SchemaPath,
    /// The URI of the document that it leads to.
    pub uri: String,
}

fn is_reference(name: &str) -> bool
    ensures reference { result ≡ is_reference name.now }
{
    name == "$ref" || name == "$dynamicRef" || name == "$recursiveRef" || name == "$schema"
}

fn is_fragment(text: &str) -> bool
    ensures fragment { result ≡ is_fragment text.now }
{
    let bytes = text.as_bytes();
    bytes.len() > 0 && bytes[0] == b'#'
}

fn target_of(alloc: Global, base: &str, reference: &str) -> Result<String, OutOfMemory>
    ensures target { Shows string_bytes result (target_of base.now reference.now) }
{
    let uri = resolve_normally(alloc, base, reference)?;
    String::from_str(alloc, without_fragment(uri.as_str()))
}

fn below_member(alloc: Global, path: &SchemaPath, name: &str) -> Result<SchemaPath, OutOfMemory>
    ensures below { Yields result (path.now ++ to_member name.now ∷ []) }
{
    let mut below = path.with_room(alloc, 1)?;
    below.push(SchemaStep::Member(RcStr::from_str(alloc, name)?))?;
    Ok(below)
}

fn below_item(alloc: Global, path: &SchemaPath, index: usize) -> Result<SchemaPath, OutOfMemory>
    ensures below { Yields result (path.now ++ to_item index ∷ []) }
{
    let mut below = path.with_room(alloc, 1)?;
    below.push(SchemaStep::Item(index))?;
    Ok(below)
}

/// Adds a member that is a text, if it is a reference to another document.
fn add_text(
    alloc: Global,
    base: &str,
    path: &SchemaPath,
    name: &str,
    text: &str,
    found: &mut Vec<Reference>,
) -> Result<(), OutOfMemory>
    ensures added { AddsReferences result found.old found.new (text_reference base.now path.now name.now text.now) }
{
    if is_reference(name) && !is_fragment(text) {
        found.push(Reference {
            path: below_member(alloc, path, name)?,
            uri: target_of(alloc, base, text)?,
        })?;
    }
    Ok(())
}

#[cycle(references)]
fn add_member(
    alloc: Global,
    base: &str,
    draft: Draft,
    path: &SchemaPath,
    name: &str,
    member: &Value,
    found: &mut Vec<Reference>,
) -> Result<(), OutOfMemory>
    ensures added { AddsReferences result found.old found.new
        (own_reference base.now path.now name.now (view member.now)
        ++ references base.now (draft_of draft) (path.now ++ to_member name.now ∷ []) (view member.now)) }
{
    match member {
        Value::String(text) => add_text(alloc, base, path, name, text.as_str(), found),
        Value::Array(_) => {
            let below = below_member(alloc, path, name)?;
            add_references(alloc, base, draft, &below, member, found)
        }
        Value::Object(_) => {
            let below = below_member(alloc, path, name)?;
            add_references(alloc, base, draft, &below, member, found)
        }
        Value::Null => Ok(()),
        Value::Bool(_) => Ok(()),
        Value::Number(_) => Ok(()),
    }
}

#[cycle(references)]
fn add_members(
    alloc: Global,
    base: &str,
    draft: Draft,
    path: &SchemaPath,
    members: &Map<String, Value>,
    found: &mut Vec<Reference>,
) -> Result<(), OutOfMemory>
    ensures added { AddsReferences result found.old found.new (member_references base.now (draft_of draft) path.now (fields members.now)) }
{
    for (name, member) in members {
        add_member(alloc, base, draft, path, name.as_str(), member, found)?;
    }
    Ok(())
}

#[cycle(references)]
fn add_items(
    alloc: Global,
    base: &str,
    draft: Draft,
    path: &SchemaPath,
    items: &Vec<Value>,
    found: &mut Vec<Reference>,
) -> Result<(), OutOfMemory>
    ensures added { AddsReferences result found.old found.new
        (item_references base.now (draft_of draft) path.now 0 (items_view items.now.items)) }
{
    for (index, item) in items.iter().enumerate() {
        let below = below_item(alloc, path, index)?;
        add_references(alloc, base, draft, &below, item, found)?;
    }
    Ok(())
}

#[cycle(references)]
fn add_references(
    alloc: Global,
    base: &str,
    draft: Draft,
    path: &SchemaPath,
    value: &Value,
    found: &mut Vec<Reference>,
) -> Result<(), OutOfMemory>
    ensures added { AddsReferences result found.old found.new (references base.now (draft_of draft) path.now (view value.now)) }
{
    match value {
        Value::Array(items) => add_items(alloc, base, draft, path, items, found),
        Value::Object(members) => {
            let draft = detected(draft, value);
            let own = uri_of(alloc, Rule::Standard, base, draft, value)?;
            let base = or_base(&own, base);
            add_members(alloc, base, draft, path, members, found)
        }
        Value::Null => Ok(()),
        Value::Bool(_) => Ok(()),
        Value::Number(_) => Ok(()),
        Value::String(_) => Ok(()),
    }
}

/// Returns the references to other documents in one that is supplied under a URI, in order.
///
/// They stand at any depth, and each is resolved against the base there. `draft` is that of a
/// document that does not name its own.
///
/// # Errors
///
/// Out of memory.
pub fn references_in(
    alloc: Global,
    uri: &str,
    draft: Draft,
    document: &Value,
) -> Result<Vec<Reference>, OutOfMemory>
    ensures references { IfOk result (λ rs. map reference_of rs.items ≡ document_references uri.now (draft_of draft) (view document.now)) }
{
    let base = normal_uri(alloc, without_fragment(uri))?;
    let path = SchemaPath::root(alloc);
    let mut found = Vec::new(alloc);
    add_references(alloc, base.as_str(), draft, &path, document, &mut found)?;
    Ok(found)
}
