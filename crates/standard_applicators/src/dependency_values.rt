//! The value of `dependencies`: the required names, and those with a schema.
ghost use Rattle.std.specs.Prelude.{◌≡◌, ◌++◌, IfOk};
ghost use Rattle.serde_json.specs.View.{items_view};
ghost use Rattle.standard_applicators.specs.DependencyValues.{are_lists_of_texts, are_texts, schema_names, text_wants, wants_of};
ghost use Rattle.schema_traits.specs.Readings.{Lists, ListsTexts, fields};

use crate::wants::Want;
use keyword_makers::push_text;
use schema_reports::OutOfMemory;
use serde_json::{Map, Value};
use std::alloc::Global;

#[tactic(auto, using(crate::proofs::ItemSteps::items_at, crate::proofs::ItemSteps::items_end))]
fn are_texts(values: &[Value]) -> bool
    ensures texts { result ≡ are_texts (items_view values.now) }
{
    for value in values {
        if !value.is_string() {
            return false;
        }
    }
    true
}

/// Returns whether each member that is a list is a list of texts.
pub fn are_lists_of_texts(members: &Map<String, Value>) -> bool
    ensures lists { result ≡ are_lists_of_texts (fields members.now) }
{
    for (_, value) in members {
        if let Some(items) = value.as_array() {
            if !are_texts(items.as_slice()) {
                return false;
            }
        }
    }
    true
}

/// Appends the names that a member's value requires.
#[tactic(auto, using(crate::proofs::ItemSteps::items_at, crate::proofs::ItemSteps::items_end))]
fn push_wants(
    alloc: Global,
    member: &str,
    values: &[Value],
    wants: &mut Vec<Want>,
) -> Result<(), OutOfMemory>
    ensures pushed { IfOk result (λ _. wants.new.items ≡ wants.old.items ++ text_wants member.now (items_view values.now)) }
{
    for value in values {
        if let Some(wanted) = value.as_str() {
            wants.push(Want::new(alloc, member, wanted)?)?;
        }
    }
    Ok(())
}

/// Returns the required names of all members whose values are lists.
pub fn wants_of(alloc: Global, members: &Map<String, Value>) -> Result<Vec<Want>, OutOfMemory>
    ensures wants { Lists result (wants_of (fields members.now)) }
{
    let mut wants = Vec::new(alloc);
    for (name, value) in members {
        if let Some(items) = value.as_array() {
            push_wants(alloc, name.as_str(), items.as_slice(), &mut wants)?;
        }
    }
    Ok(wants)
}

/// Returns the names of the members whose values are no lists, but schemas.
pub fn schema_names(alloc: Global, members: &Map<String, Value>) -> Result<Vec<String>, OutOfMemory>
    ensures names { ListsTexts result (schema_names (fields members.now)) }
{
    let mut names = Vec::new(alloc);
    for (name, value) in members {
        if !value.is_array() {
            push_text(alloc, name.as_str(), &mut names)?;
        }
    }
    Ok(names)
}
