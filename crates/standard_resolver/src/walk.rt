//! The walk through a document, from schemas to their subschemas.
//!
//! The walk carries the base, as a state does. So a nested identifier is resolved in the same way
//! when its resource is found and when it is entered.
ghost use Rattle.std.specs.Prelude.{◌≡◌, OnOk};
ghost use Rattle.std.specs.List.{filter};
ghost use Rattle.serde_json.specs.View.{view};
ghost use Rattle.schema_drafts.specs.KeywordViews.{draft_of};
ghost use Rattle.standard_resolver.specs.DialectViews.{dialect_of};
ghost use Rattle.standard_resolver.specs.DocumentResources.{goes_into, walked};
ghost use Rattle.standard_resolver.specs.ResourceSpeaking.{speaking, speaks, kept};
ghost use Rattle.standard_resolver.specs.DocumentViews.{visited_of, path_over};
ghost use Rattle.schema_traits.specs.Showing.{Yields};
ghost use Rattle.standard_resolver.specs.DocumentShowing.{Appends};
ghost use Rattle.standard_resolver.specs.WalkWords.{AddsSpeaking, visited_over, ListsVisited};

use crate::dialects::{Dialect, Reading};
use schema_drafts::Draft;
use schema_reports::OutOfMemory;
use schema_traits::SchemaPath;
use serde_json::Value;
use standard_subschemas::{
    FoundSchema, Rule, dynamic_name, identifier, is_plain, or_base, plain_name, subschemas_found,
    uri_of,
};
use std::alloc::Global;

/// A visited schema, with its path, the base around it, and its dialect.
#[derive(Drop)]
pub struct Visited<'a> {
    pub path: SchemaPath,
    pub base: String,
    pub dialect: Dialect<'a>,
    pub schema: &'a Value,
}

/// Returns whether the walk goes into a schema.
///
/// It goes into all schemas, or only into those without an identifier.
fn goes_into(everywhere: bool, draft: Draft, schema: &Value) -> bool
    ensures goes { result ≡ goes_into everywhere (draft_of draft) (view schema.now) }
{
    everywhere || identifier(draft, schema).is_none()
}

/// Returns whether a schema has what the walk looks for.
///
/// That is an identifier if the walk goes into all schemas, and a name otherwise.
fn speaks(rule: Rule, everywhere: bool, draft: Draft, schema: &Value) -> bool
    ensures speaks { result ≡ speaks rule everywhere (draft_of draft) (view schema.now) }
{
    if everywhere {
        identifier(draft, schema).is_some()
    } else {
        plain_name(rule, draft, schema).is_some() || dynamic_name(rule, draft, schema).is_some()
    }
}

/// Returns the path of a schema, continued from subschema to subschema.
fn path_over(
    alloc: Global,
    path: &SchemaPath,
    way: &[FoundSchema<'_>],
) -> Result<SchemaPath, OutOfMemory>
    ensures path { Yields result (path_over path.now way.now) }
{
    let mut over = path.clone()?;
    for found in way {
        found.add_steps(alloc, &mut over)?;
    }
    Ok(over)
}

/// Adds the visited schema, if it has what the walk looks for.
fn keep<'a>(
    alloc: Global,
    reading: &Reading<'_>,
    everywhere: bool,
    path: &SchemaPath,
    way: &[FoundSchema<'a>],
    base: &str,
    dialect: Dialect<'a>,
    schema: &'a Value,
    visited: &mut Vec<Visited<'a>>,
) -> Result<(), OutOfMemory>
    ensures kept { OnOk result (Appends visited_of visited.old.items visited.new.items (kept reading.now.rule
        everywhere (visited_over path.now way.now base.now dialect.entry schema.now))) }
{
    if speaks(reading.rule(), everywhere, dialect.draft, schema) {
        visited.push(Visited {
            path: path_over(alloc, path, way)?,
            base: String::from_str(alloc, base)?,
            dialect,
            schema,
        })?;
    }
    Ok(())
}

/// Adds the schemas below a schema that have what the walk looks for.
///
/// The schema is at the path, continued along `way`, and `base` is the base inside it.
fn visit_below<'a>(
    alloc: Global,
    reading: &Reading<'_>,
    everywhere: bool,
    path: &SchemaPath,
    way: &mut Vec<FoundSchema<'a>>,
    base: &str,
    dialect: Dialect<'a>,
    schema: &'a Value,
    visited: &mut Vec<Visited<'a>>,
) -> Result<(), OutOfMemory>
    ensures way { OnOk result (way.new.items ≡ way.old.items) }
    ensures visited { OnOk result (AddsSpeaking reading.now everywhere (path_over path.now way.old.items) base.now
        dialect.entry schema.now visited.old.items visited.new.items) }
{
    let rule = reading.rule();
    for found in &subschemas_found(alloc, rule, dialect.draft, schema)? {
        let below = found.schema;
        if is_plain(rule, below) {
            continue;
        }
        let dialect = reading.dialect_inside(dialect, below);
        if !goes_into(everywhere, dialect.draft, below) {
            continue;
        }
        way.push(*found)?;
        let on_way = way.as_slice();
        keep(
            alloc, reading, everywhere, path, on_way, base, dialect, below, visited,
        )?;
        let own = uri_of(alloc, rule, base, dialect.draft, below)?;
        let inside = or_base(&own, base);
        visit_below(
            alloc, reading, everywhere, path, way, inside, dialect, below, visited,
        )?;
        way.pop();
    }
    Ok(())
}

/// Returns the schemas below a schema that have an identifier or a name.
///
/// If the walk goes everywhere, it looks for identifiers. Otherwise it looks for names, and does
/// not go into schemas with an identifier. `base` is the base inside the schema.
///
/// # Errors
///
/// Out of memory.
pub fn walked<'a>(
    alloc: Global,
    reading: &Reading<'_>,
    everywhere: bool,
    path: &SchemaPath,
    base: &str,
    dialect: Dialect<'a>,
    schema: &'a Value,
) -> Result<Vec<Visited<'a>>, OutOfMemory>
    ensures walked { ListsVisited result (filter (speaking reading.now.rule everywhere) (walked reading.now everywhere path.now base.now
        (dialect_of dialect.entry) (view schema.now))) }
{
    let mut visited = Vec::new(alloc);
    let mut way = Vec::new(alloc);
    visit_below(
        alloc,
        reading,
        everywhere,
        path,
        &mut way,
        base,
        dialect,
        schema,
        &mut visited,
    )?;
    Ok(visited)
}
