//! The names in a resource.
//!
//! By the standard's rule a name in a fragment is decoded, that of a reference as well as that of an
//! identifier. An empty name is never looked up, since an empty fragment leads to the root. If the
//! `$anchor` and the `$dynamicAnchor` of a schema are the same text, the `$anchor` comes first.
ghost use Rattle.std.specs.Prelude.{◌≡◌, map, option_map, string_bytes, OnOk};
ghost use Rattle.std.specs.HashMap.{get_by_text};
ghost use Rattle.standard_subschemas.specs.DocumentKeys.{IsNumbered};
ghost use Rattle.standard_resolver.specs.DocumentResources.{dynamic_key, name_if, name_key, names_at, names_in};
ghost use Rattle.standard_resolver.specs.DocumentNameViews.{name_of};
ghost use Rattle.standard_resolver.specs.DocumentViews.{visited_of};
ghost use Rattle.schema_traits.specs.Readings.{text_read};
ghost use Rattle.schema_traits.specs.Showing.{Shows, Yields};
ghost use Rattle.standard_subschemas.specs.SubschemaRules.{dynamic_name};
ghost use Rattle.standard_resolver.specs.DocumentShowing.{Appends};
ghost use Rattle.standard_resolver.specs.TargetWords.{first_dynamic_named, first_named};

use crate::dialects::Reading;
use crate::walk::{Visited, walked};
use schema_drafts::Draft;
use schema_reports::OutOfMemory;
use schema_traits::SchemaPath;
use standard_subschemas::{Rule, add_number, dynamic_name, schema_name};
use std::alloc::Global;
use std::collections::HashMap;
use std::marker::Model;

/// A name of a schema, with the schema's path and draft.
///
/// A name is dynamic if it is a `$dynamicAnchor`.
#[derive(Drop)]
pub struct Name {
    pub name: String,
    pub path: SchemaPath,
    pub draft: Draft,
    pub is_dynamic: bool,
}

/// The names in a resource, in the order of the walk.
///
/// Contracts see the list.
#[derive(Drop)]
pub struct Names {
    names: Vec<Name>,
    // Maps each text to the number of the first name, and of the first dynamic name.
    numbers: HashMap<String, usize>,
    dynamic_numbers: HashMap<String, usize>,
}

impl Model for Names {
    ghost use Rattle.std.specs.Prelude.{List, map};
    ghost use Rattle.std.specs.HashMap.{get_by_text};
    ghost use Rattle.standard_subschemas.specs.DocumentKeys.{IsNumbered};
    ghost use Rattle.standard_resolver.specs.DocumentResources.{Name as name, dynamic_key, name_key};
    ghost use Rattle.standard_resolver.specs.DocumentNameViews.{name_of};

    ghost Value = { List name };

    ghost view = { λ n. map name_of n.names.items };

    ghost invariant = { λ n. IsNumbered (map name_key (map name_of n.names.items)) (get_by_text n.numbers)
        × IsNumbered (map dynamic_key (map name_of n.names.items)) (get_by_text n.dynamic_numbers) };
}

impl Names {
    /// Returns the first name with a text.
    pub fn find(&self, text: &str) -> Option<&Name>
        ensures first { option_map (λ x. name_of x.now) result ≡ first_named text.now self.now }
    {
        match self.numbers.get(text) {
            Some(number) => self.names.get(*number),
            None => None,
        }
    }

    /// Returns the first dynamic name with a text.
    pub fn find_dynamic(&self, text: &str) -> Option<&Name>
        ensures first { option_map (λ x. name_of x.now) result ≡ first_dynamic_named text.now self.now }
    {
        match self.dynamic_numbers.get(text) {
            Some(number) => self.names.get(*number),
            None => None,
        }
    }
}

fn dynamic_name_of(
    alloc: Global,
    rule: Rule,
    visited: &Visited<'_>,
) -> Result<Option<String>, OutOfMemory>
    ensures name { let v = visited_of visited.now in Shows (option_map string_bytes) result (dynamic_name rule v.dialect.draft v.schema) }
{
    match dynamic_name(rule, visited.dialect.draft, visited.schema) {
        Some(name) => Ok(Some(String::from_str(alloc, name)?)),
        None => Ok(None),
    }
}

fn push_name(
    visited: &Visited<'_>,
    name: Option<String>,
    is_dynamic: bool,
    names: &mut Vec<Name>,
) -> Result<(), OutOfMemory>
    ensures pushed { OnOk result (Appends name_of names.old.items names.new.items (name_if (option_map string_bytes name) is_dynamic (visited_of
        visited.now))) }
{
    if let Some(name) = name {
        names.push(Name {
            name,
            path: visited.path.clone()?,
            draft: visited.dialect.draft,
            is_dynamic,
        })?;
    }
    Ok(())
}

fn push_names(
    alloc: Global,
    rule: Rule,
    visited: &Visited<'_>,
    names: &mut Vec<Name>,
) -> Result<(), OutOfMemory>
    ensures pushed { OnOk result (Appends name_of names.old.items names.new.items (names_at rule (visited_of visited.now))) }
{
    let name = schema_name(alloc, rule, visited.dialect.draft, visited.schema)?;
    push_name(visited, name, false, names)?;
    let dynamic = dynamic_name_of(alloc, rule, visited)?;
    push_name(visited, dynamic, true, names)
}

fn dynamic_key(name: &Name) -> Option<&str>
    ensures key { text_read result ≡ dynamic_key (name_of name.now) }
{
    if name.is_dynamic {
        Some(name.name.as_str())
    } else {
        None
    }
}

/// Makes the maps that find names by their texts.
fn numbered(alloc: Global, names: Vec<Name>) -> Result<Names, OutOfMemory>
    ensures same { Yields result (map name_of names.items) }
{
    let mut numbers = HashMap::new(alloc);
    let mut dynamic_numbers = HashMap::new(alloc);
    for (number, name) in names.iter().enumerate() {
        add_number(alloc, &mut numbers, Some(name.name.as_str()), number)?;
        add_number(alloc, &mut dynamic_numbers, dynamic_key(name), number)?;
    }
    Ok(Names {
        names,
        numbers,
        dynamic_numbers,
    })
}

/// Returns the names of the resource that begins with a schema.
///
/// # Errors
///
/// Out of memory.
pub fn names_in(
    alloc: Global,
    reading: &Reading<'_>,
    root: &Visited<'_>,
) -> Result<Names, OutOfMemory>
    ensures names { Yields result (names_in reading.now (visited_of root.now)) }
{
    let rule = reading.rule();
    let mut names = Vec::new(alloc);
    push_names(alloc, rule, root, &mut names)?;
    for visited in &walked(
        alloc,
        reading,
        false,
        &root.path,
        "",
        root.dialect,
        root.schema,
    )? {
        push_names(alloc, rule, visited, &mut names)?;
    }
    numbered(alloc, names)
}
