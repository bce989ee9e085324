//! The names of an instance's members.
ghost use Rattle.std.specs.Prelude.{◌≡◌};
ghost use Rattle.schema_reports.specs.InstanceViews.{subject_of};
ghost use Rattle.schema_traits.specs.KeywordViews.{is_nil};
ghost use Rattle.keyword_authoring.specs.Members.{names_in, subject_names};
ghost use Rattle.standard_pattern_properties.specs.GatedKeywords.{unlisted};
ghost use Rattle.schema_traits.specs.Showing.{Yields};
ghost use Rattle.schema_traits.specs.Readings.{fields};

use crate::listed::Listed;
use crate::names::NamesLeft;
use keyword_authoring::members_of;
use schema_reports::{Instance, OutOfMemory};
use serde_json::{Map, Value};
use std::alloc::Global;

/// Returns the names of an object's members.
fn names_in(alloc: Global, members: &Map<String, Value>) -> Result<NamesLeft, OutOfMemory>
    ensures names { Yields result (names_in (fields members.now)) }
{
    let mut names = NamesLeft::none(alloc);
    for (name, _) in members {
        names.push(alloc, name.as_str())?;
    }
    Ok(names)
}

/// Returns the names of an object's members that are not listed.
fn unlisted_in(
    alloc: Global,
    listed: &Listed,
    members: &Map<String, Value>,
) -> Result<NamesLeft, OutOfMemory>
    ensures names { Yields result (unlisted listed.now (names_in (fields members.now))) }
{
    let mut left = NamesLeft::none(alloc);
    let mut from = 0;
    for (name, _) in members {
        let (next, is_listed) = listed.has_from(from, name.as_str());
        from = next;
        if !is_listed {
            left.push(alloc, name.as_str())?;
        }
    }
    Ok(left)
}

/// Returns whether the name of each member of an object is listed.
fn lists_each_in(listed: &Listed, members: &Map<String, Value>) -> bool
    ensures lists { result ≡ is_nil (unlisted listed.now (names_in (fields members.now))) }
{
    let mut from = 0;
    for (name, _) in members {
        let (next, is_listed) = listed.has_from(from, name.as_str());
        if !is_listed {
            return false;
        }
        from = next;
    }
    true
}

/// Returns the names of the instance's members, in order.
pub fn all_names(alloc: Global, instance: Instance<'_>) -> Result<NamesLeft, OutOfMemory>
    ensures names { Yields result (subject_names (subject_of instance.entry)) }
{
    match members_of(instance) {
        Some(members) => names_in(alloc, members),
        None => Ok(NamesLeft::none(alloc)),
    }
}

/// Returns the names of the instance's members that are not listed, in order.
///
/// Each name is looked up once.
pub fn unlisted_names(
    alloc: Global,
    listed: &Listed,
    instance: Instance<'_>,
) -> Result<NamesLeft, OutOfMemory>
    ensures names { Yields result (unlisted listed.now (subject_names (subject_of instance.entry))) }
{
    match members_of(instance) {
        Some(members) => unlisted_in(alloc, listed, members),
        None => Ok(NamesLeft::none(alloc)),
    }
}

/// Returns whether the name of each member of the instance is listed.
pub fn lists_each(listed: &Listed, instance: Instance<'_>) -> bool
    ensures lists { result ≡ is_nil (unlisted listed.now (subject_names (subject_of instance.entry))) }
{
    match members_of(instance) {
        Some(members) => lists_each_in(listed, members),
        None => true,
    }
}

/// Returns whether the instance has no members.
pub fn has_none(instance: Instance<'_>) -> bool
    ensures none { result ≡ is_nil (subject_names (subject_of instance.entry)) }
{
    match members_of(instance) {
        Some(members) => members.is_empty(),
        None => true,
    }
}
