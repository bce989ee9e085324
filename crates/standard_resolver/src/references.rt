//! The targets of references.
//!
//! A dynamic reference enters the resource that it leads into, which need not be the one that its
//! URI names.
ghost use Rattle.std.specs.Prelude.{◌≡◌, option_map, string_bytes};
ghost use Rattle.serde_json.specs.View.{view};
ghost use Rattle.theory_definitions.specs.Parts.{Parts};
ghost use Rattle.standard_subschemas.specs.Refusals.{RefusesWith};
ghost use Rattle.standard_resolver.specs.DocumentLookups.{dynamic_in, first_dynamic, first_recursive, looked_up, looked_up_recursive};
ghost use Rattle.standard_resolver.specs.DocumentLookups.{no_base, not_at_hand, nothing_there, recursive_in, target_by_fragment, target_of_name};
ghost use Rattle.standard_resolver.specs.DocumentLookups.{target_named, target_root};
ghost use Rattle.standard_resolver.specs.ResolverStart.{NarrowBasesStand, StartsAtInnermost};
ghost use Rattle.standard_resolver.specs.Dialects.{text_or_none};
ghost use Rattle.standard_resolver.specs.DocumentStates.{Point};
ghost use Rattle.standard_resolver.specs.DocumentNameViews.{name_of};
ghost use Rattle.standard_resolver.specs.DocumentResourceViews.{resource_of};
ghost use Rattle.standard_resolver.specs.DocumentViews.{held, point_of};
ghost use Rattle.standard_resolver.specs.TargetWords.{LeadsTo, ShowsTarget, ShowsTargetIf, arrived_from, target_pointed_at};

use crate::dialects::unknown_meta;
use crate::documents::Documents;
use crate::names::Name;
use crate::on_way::is_subschema;
use crate::resolver::DocumentState;
use crate::resources::{Resource, Resources};
use crate::states::{enter, entered_inner};
use schema_reports::OutOfMemory;
use schema_traits::{LookupError, SchemaPath, SchemaPlace, Target};
use serde_json::Value;
use standard_subschemas::{
    Rule, decoded, fragment_of, name_in_fragment, path_by_pointer, refusal, resolve_uri,
    value_below, without_fragment,
};
use std::alloc::Global;

/// A reference to look up, and whether it is dynamic.
#[derive(Clone, Copy)]
struct Followed<'r> {
    reference: &'r str,
    dynamic: bool,
}

fn nothing_there(alloc: Global, reference: &str) -> LookupError
    ensures refused { RefusesWith (nothing_there reference.now) result }
{
    let text = "nothing stands where this reference points: ";
    refusal(alloc, text, reference)
}

/// Makes the error for a reference to a resource that is not found.
fn not_at_hand(alloc: Global, rule: Rule, reference: &str, uri: &str) -> LookupError
    ensures refused { RefusesWith (not_at_hand rule reference.now uri.now) result }
{
    match rule {
        Rule::Narrow => {
            let text = "this resolver has no resource for the reference ";
            refusal(alloc, text, reference)
        }
        Rule::Standard => {
            let text = "this resolver has no resource under the URI ";
            refusal(alloc, text, uri)
        }
    }
}

/// Follows a path from a resource's root to a target.
///
/// Each subschema on the path may enter a resource by its identifier, and may change the draft.
/// `before` is the state before the reference, and `state` that in the resource.
fn arrived(
    alloc: Global,
    resources: &Resources<'_>,
    reference: &str,
    resource: &Resource,
    root: &Value,
    path: &SchemaPath,
    before: &DocumentState,
    state: DocumentState,
) -> Result<Target<DocumentState>, LookupError>
    ensures leads { LeadsTo result (arrived_from resources.now reference.now (resource_of resource.now) (point_of before.now) (view root.now)
        (point_of state) path.now) }
{
    let mut place = resource.place()?;
    let mut state = state;
    let mut draft = resource.draft;
    let mut schema = root;
    let mut since = SchemaPath::root(alloc);
    let mut reached = root;
    for step in path.steps() {
        let Some(below) = value_below(reached, step) else {
            return Err(nothing_there(alloc, reference));
        };
        since.push(step.clone()?)?;
        place.path.push(step.clone()?)?;
        reached = below;
        if is_subschema(resources.rule(), draft, &since, schema) {
            draft = resources.reading().detected(draft, below);
            state = entered_inner(alloc, resources, before, state, draft, &place, below)?;
            schema = below;
            since = SchemaPath::root(alloc);
        }
    }
    Ok(Target {
        place,
        state,
        draft: resources.reading().detected(draft, reached),
    })
}

fn target_by_pointer(
    alloc: Global,
    documents: &Documents<'_>,
    resources: &Resources<'_>,
    reference: &str,
    resource: &Resource,
    before: &DocumentState,
    state: DocumentState,
    pointer: &str,
) -> Result<Target<DocumentState>, LookupError>
    ensures leads { LeadsTo result (target_pointed_at (held documents.now) resources.now reference.now (resource_of resource.now)
        (point_of before.now) (point_of state) pointer.now) }
{
    let place = resource.place()?;
    let Some(root) = documents.value_at(&place) else {
        return Err(nothing_there(alloc, reference));
    };
    let pointer = decoded(alloc, pointer)?;
    let Some(path) = path_by_pointer(alloc, resources.rule(), pointer.as_str(), root)? else {
        return Err(nothing_there(alloc, reference));
    };
    arrived(
        alloc, resources, reference, resource, root, &path, before, state,
    )
}

fn target_named(
    alloc: Global,
    number: usize,
    resource: &Resource,
    state: &DocumentState,
    name: &Name,
) -> Result<Target<DocumentState>, OutOfMemory>
    ensures target { ShowsTarget result (target_named number (resource_of resource.now) (point_of state.now) (name_of name.now)) }
{
    Ok(Target {
        place: SchemaPlace {
            document: resource.document,
            path: name.path.clone()?,
        },
        state: enter(alloc, state, number, resource.base.as_str())?,
        draft: name.draft,
    })
}

/// Finds a dynamic name in the resource with a number.
fn dynamic_in(
    alloc: Global,
    resources: &Resources<'_>,
    state: &DocumentState,
    name: &str,
    number: usize,
) -> Result<Option<Target<DocumentState>>, OutOfMemory>
    ensures target { ShowsTargetIf result (dynamic_in resources.now (point_of state.now) name.now number) }
{
    let Some(resource) = resources.get(number) else {
        return Ok(None);
    };
    match resource.names.find_dynamic(name) {
        Some(name) => Ok(Some(target_named(alloc, number, resource, state, name)?)),
        None => Ok(None),
    }
}

/// Finds a dynamic name in the first entered resource that has it.
fn first_dynamic(
    alloc: Global,
    resources: &Resources<'_>,
    state: &DocumentState,
    name: &str,
) -> Result<Option<Target<DocumentState>>, OutOfMemory>
    ensures target { ShowsTargetIf result (first_dynamic resources.now (point_of state.now) name.now (point_of state.now).entered) }
{
    for number in state.entered.as_ref() {
        if let Some(target) = dynamic_in(alloc, resources, state, name, *number)? {
            return Ok(Some(target));
        }
    }
    Ok(None)
}

/// Finds a name in a resource.
///
/// A dynamic reference to a dynamic name leads to the first entered resource that has the name.
fn target_by_name(
    alloc: Global,
    resources: &Resources<'_>,
    followed: Followed<'_>,
    number: usize,
    resource: &Resource,
    state: &DocumentState,
    text: &str,
) -> Result<Target<DocumentState>, LookupError>
    ensures leads { LeadsTo result (target_of_name resources.now followed.entry.reference.now number (resource_of resource.now)
        (point_of state.now) followed.entry.dynamic text.now) }
{
    let Some(name) = resource.names.find(text) else {
        let refused = "nothing has the name of the reference ";
        return Err(refusal(alloc, refused, followed.reference));
    };
    if followed.dynamic && name.is_dynamic {
        if let Some(target) = first_dynamic(alloc, resources, state, text)? {
            return Ok(target);
        }
    }
    Ok(target_named(alloc, number, resource, state, name)?)
}

fn target_root(
    alloc: Global,
    number: usize,
    resource: &Resource,
    state: &DocumentState,
) -> Result<Target<DocumentState>, OutOfMemory>
    ensures target { ShowsTarget result (target_root number (resource_of resource.now) (point_of state.now)) }
{
    Ok(Target {
        place: resource.place()?,
        state: enter(alloc, state, number, resource.base.as_str())?,
        draft: resource.draft,
    })
}

/// Follows a fragment in a resource.
///
/// It is empty and leads to the root, or it is a pointer or a name.
fn target_by_fragment(
    alloc: Global,
    documents: &Documents<'_>,
    resources: &Resources<'_>,
    followed: Followed<'_>,
    number: usize,
    resource: &Resource,
    state: &DocumentState,
    fragment: &str,
) -> Result<Target<DocumentState>, LookupError>
    ensures leads { LeadsTo result (target_by_fragment resources.now (held documents.now) followed.entry.reference.now number
        (resource_of resource.now) (point_of state.now) followed.entry.dynamic fragment.now) }
{
    if fragment.is_empty() {
        return Ok(target_root(alloc, number, resource, state)?);
    }
    if fragment.as_bytes()[0] == b'/' {
        let reference = followed.reference;
        let inside = enter(alloc, state, number, resource.base.as_str())?;
        return target_by_pointer(
            alloc, documents, resources, reference, resource, state, inside, fragment,
        );
    }
    let name = name_in_fragment(alloc, resources.rule(), fragment)?;
    target_by_name(
        alloc,
        resources,
        followed,
        number,
        resource,
        state,
        name.as_str(),
    )
}

/// Returns the `$schema` that is in force in a resource, or nothing.
fn named_in<'r>(resource: &'r Resource) -> &'r str
    ensures named { result.now ≡ text_or_none (option_map string_bytes resource.now.named) }
{
    match &resource.named {
        Some(uri) => uri.as_str(),
        None => "",
    }
}

/// Returns the target of a reference: its place, the state there, its draft.
///
/// # Errors
///
/// - Out of memory.
/// - The reference cannot be resolved, leads to no resource, or leads to nothing in its resource.
///   The error names the reference, or the URI if the standard's rule finds no resource.
/// - A subschema on the path has an identifier, but no resource with its URI begins there.
/// - The `$schema` of the resource, or of a subschema with an identifier, is not known.
pub fn looked_up(
    alloc: Global,
    documents: &Documents<'_>,
    resources: &Resources<'_>,
    state: &DocumentState,
    reference: &str,
    dynamic: bool,
) -> Result<Target<DocumentState>, LookupError>
    ensures leads { LeadsTo result (looked_up resources.now (held documents.now) (point_of state.now) reference.now dynamic) }
{
    let rule = resources.rule();
    let uri = resolve_uri(alloc, rule, state.base.as_str(), reference)?;
    let Some(number) = resources.number_of(without_fragment(uri.as_str())) else {
        return Err(not_at_hand(alloc, rule, reference, uri.as_str()));
    };
    let Some(resource) = resources.get(number) else {
        return Err(not_at_hand(alloc, rule, reference, uri.as_str()));
    };
    if resources.reading().is_refused(resource.draft) {
        return Err(unknown_meta(alloc, named_in(resource)));
    }
    let followed = Followed { reference, dynamic };
    let fragment = fragment_of(uri.as_str());
    target_by_fragment(
        alloc, documents, resources, followed, number, resource, state, fragment,
    )
}

/// Returns the root of the resource with a number, if it is recursive.
fn recursive_in(
    alloc: Global,
    resources: &Resources<'_>,
    state: &DocumentState,
    number: usize,
) -> Result<Option<Target<DocumentState>>, OutOfMemory>
    ensures target { ShowsTargetIf result (recursive_in resources.now (point_of state.now) number) }
{
    match resources.get(number) {
        Some(resource) if resource.is_recursive => {
            Ok(Some(target_root(alloc, number, resource, state)?))
        }
        _ => Ok(None),
    }
}

/// Returns the root of the first entered resource that is recursive.
fn first_recursive(
    alloc: Global,
    resources: &Resources<'_>,
    state: &DocumentState,
) -> Result<Option<Target<DocumentState>>, OutOfMemory>
    ensures target { ShowsTargetIf result (first_recursive resources.now (point_of state.now) (point_of state.now).entered) }
{
    for number in state.entered.as_ref() {
        if let Some(target) = recursive_in(alloc, resources, state, *number)? {
            return Ok(Some(target));
        }
    }
    Ok(None)
}

fn no_base(alloc: Global, base: &str) -> LookupError
    ensures refused { RefusesWith (no_base base.now) result }
{
    refusal(alloc, "this resolver has no resource under the base ", base)
}

/// Returns the target of a `$recursiveRef`.
///
/// It is the root of the resource, or the first entered root that is recursive if the resource's
/// root is.
///
/// # Errors
///
/// Out of memory, or no resource has the base of the state.
pub fn looked_up_recursive(
    alloc: Global,
    resources: &Resources<'_>,
    state: &DocumentState,
) -> Result<Target<DocumentState>, LookupError>
    ensures leads { LeadsTo result (looked_up_recursive resources.now (point_of state.now)) }
{
    let Some(number) = resources.number_of(state.base.as_str()) else {
        return Err(no_base(alloc, state.base.as_str()));
    };
    let Some(resource) = resources.get(number) else {
        return Err(no_base(alloc, state.base.as_str()));
    };
    if resource.is_recursive {
        if let Some(target) = first_recursive(alloc, resources, state)? {
            return Ok(target);
        }
    }
    Ok(target_root(alloc, number, resource, state)?)
}

/// A law: the part of a pointer outside the resource of its target.
///
/// It is the part up to the innermost subschema with an identifier that the pointer enters or ends
/// at, counted from the root of the resource that the reference's URI names. This requires that
/// bases lead back to their resources, which they always do by the narrow rule. The function does
/// nothing.
pub fn starts_at_the_innermost_resource<K, R>()
    ensures starts { (w : Parts Point K R) → StartsAtInnermost w }
    ensures narrow { NarrowBasesStand }
{}
