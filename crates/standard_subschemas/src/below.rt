//! Subschemas of schemas.
ghost use Rattle.std.specs.Prelude.{◌≡◌, ◌++◌, map, IfOk, IfSome, OnOk};
ghost use Rattle.std.specs.Rc.{rc_str_bytes};
ghost use Rattle.serde_json.specs.Find.{get};
ghost use Rattle.serde_json.specs.Data.{object};
ghost use Rattle.serde_json.specs.View.{view};
ghost use Rattle.theory_definitions.specs.Drafts.{at_path};
ghost use Rattle.schema_drafts.specs.KeywordViews.{draft_of};
ghost use Rattle.schema_traits.specs.ResolverViews.{place_of};
ghost use Rattle.standard_subschemas.specs.SubschemaRules.{below_list, below_object, below_value, is_schema};
ghost use Rattle.standard_subschemas.specs.SubschemaRules.{subschemas};
ghost use Rattle.standard_subschemas.specs.FoundSchemas.{schema_if};
ghost use Rattle.standard_subschemas.specs.FoundViews.{below, found_of, path_of, steps_inside};
ghost use Rattle.schema_traits.specs.Showing.{Shows};
ghost use Rattle.schema_traits.specs.Readings.{fields, value_read};
ghost use Rattle.standard_subschemas.specs.FoundWords.{FindsBelow, FindsBelowEach, ListsFound, ListsPlaced, ListsPlaces, subschemas_in};

use crate::plain::any_names_schemas;
use crate::rules::Rule;
use crate::schema_names::{names_of_lists, names_of_objects, names_of_values};
use schema_drafts::Draft;
use schema_reports::OutOfMemory;
use schema_traits::{PlacedSchema, SchemaPath, SchemaPlace, SchemaStep};
use serde_json::{Map, Value};
use std::alloc::Global;
use std::rc::RcStr;

/// Returns whether a value may be a schema: an object or a boolean.
pub fn is_schema(value: &Value) -> bool
    ensures schema { result ≡ is_schema (view value.now) }
{
    value.is_object() || value.is_boolean()
}

fn member<'v>(members: &'v Map<String, Value>, name: &str) -> Option<&'v Value>
    ensures member { value_read result ≡ get name.now (object (fields members.now)) }
{
    members.get(name)
}

/// The step from a keyword's value to a subschema.
///
/// It is `Nothing` if the value itself is the subschema.
#[derive(Clone, Copy)]
pub enum Inside<'v> {
    Nothing,
    Member(&'v str),
    Item(usize),
}

/// A subschema, with its keyword and the step from the keyword's value to it.
#[derive(Clone, Copy)]
pub struct FoundSchema<'v> {
    pub keyword: &'v str,
    pub inside: Inside<'v>,
    pub schema: &'v Value,
}

impl<'v> FoundSchema<'v> {
    /// Appends the steps to the subschema to a path.
    ///
    /// # Errors
    ///
    /// Out of memory.
    pub fn add_steps(&self, alloc: Global, path: &mut SchemaPath) -> Result<(), OutOfMemory>
        ensures added { OnOk result (path.new ≡ path.old ++ path_of self.now) }
    {
        path.push(SchemaStep::Member(RcStr::from_str(alloc, self.keyword)?))?;
        self.add_inside(alloc, path)
    }

    /// Appends the step from the keyword's value to the subschema to a path.
    fn add_inside(&self, alloc: Global, path: &mut SchemaPath) -> Result<(), OutOfMemory>
        ensures added { OnOk result (path.new ≡ path.old ++ steps_inside self.now.inside) }
    {
        match self.inside {
            Inside::Nothing => Ok(()),
            Inside::Member(name) => path.push(SchemaStep::Member(RcStr::from_str(alloc, name)?)),
            Inside::Item(index) => path.push(SchemaStep::Item(index)),
        }
    }
}

/// Adds a value, if it is a schema.
fn add_schema<'v>(one: FoundSchema<'v>, found: &mut Vec<FoundSchema<'v>>) -> Result<(), OutOfMemory>
    ensures added { OnOk result (map found_of found.new.items ≡ map found_of found.old.items ++ schema_if (found_of one.entry)) }
{
    if is_schema(one.schema) {
        found.push(one)?;
    }
    Ok(())
}

/// Adds the schemas among the members of the object under a keyword.
fn find_in_object<'v>(
    members: &'v Map<String, Value>,
    keyword: &'v str,
    found: &mut Vec<FoundSchema<'v>>,
) -> Result<(), OutOfMemory>
    ensures found { FindsBelow result found.old found.new members.now below_object keyword.now }
{
    let Some(value) = member(members, keyword) else {
        return Ok(());
    };
    let Some(inner) = value.as_object() else {
        return Ok(());
    };
    for (name, member) in inner.iter() {
        let one = FoundSchema {
            keyword,
            inside: Inside::Member(name.as_str()),
            schema: member,
        };
        add_schema(one, found)?;
    }
    Ok(())
}

/// Adds the schemas among the items of the list under a keyword.
fn find_in_list<'v>(
    members: &'v Map<String, Value>,
    keyword: &'v str,
    found: &mut Vec<FoundSchema<'v>>,
) -> Result<(), OutOfMemory>
    ensures found { FindsBelow result found.old found.new members.now below_list keyword.now }
{
    let Some(value) = member(members, keyword) else {
        return Ok(());
    };
    let Some(items) = value.as_array() else {
        return Ok(());
    };
    for (index, item) in items.iter().enumerate() {
        let one = FoundSchema {
            keyword,
            inside: Inside::Item(index),
            schema: item,
        };
        add_schema(one, found)?;
    }
    Ok(())
}

/// Adds the value under a keyword, if it is a schema.
fn find_value<'v>(
    members: &'v Map<String, Value>,
    keyword: &'v str,
    found: &mut Vec<FoundSchema<'v>>,
) -> Result<(), OutOfMemory>
    ensures found { FindsBelow result found.old found.new members.now below_value keyword.now }
{
    let Some(value) = member(members, keyword) else {
        return Ok(());
    };
    let one = FoundSchema {
        keyword,
        inside: Inside::Nothing,
        schema: value,
    };
    add_schema(one, found)
}

/// The position of subschemas under a keyword.
///
/// They are the members of an object, the items of a list, or the value itself.
#[derive(Clone, Copy)]
pub enum Lying {
    InObject,
    InList,
    AsValue,
}

fn find_under<'v>(
    lying: Lying,
    members: &'v Map<String, Value>,
    keyword: &'v str,
    found: &mut Vec<FoundSchema<'v>>,
) -> Result<(), OutOfMemory>
    ensures found { FindsBelow result found.old found.new members.now (below lying) keyword.now }
{
    match lying {
        Lying::InObject => find_in_object(members, keyword, found),
        Lying::InList => find_in_list(members, keyword, found),
        Lying::AsValue => find_value(members, keyword, found),
    }
}

fn find_under_each<'v>(
    lying: Lying,
    members: &'v Map<String, Value>,
    keywords: &[&'v str],
    found: &mut Vec<FoundSchema<'v>>,
) -> Result<(), OutOfMemory>
    ensures found { FindsBelowEach result found.old found.new members.now (below lying) keywords.now }
{
    for keyword in keywords {
        find_under(lying, members, *keyword, found)?;
    }
    Ok(())
}

#[tactic(auto, using(crate::proofs::PlaceLists::parts))]
fn found_in<'v>(
    alloc: Global,
    rule: Rule,
    draft: Draft,
    members: &'v Map<String, Value>,
) -> Result<Vec<FoundSchema<'v>>, OutOfMemory>
    ensures found { ListsFound result (subschemas_in rule draft (object (fields members.now))) }
{
    let mut found = Vec::new(alloc);
    let objects = names_of_objects(rule, draft);
    find_under_each(Lying::InObject, members, objects, &mut found)?;
    let lists = names_of_lists(rule, draft);
    find_under_each(Lying::InList, members, lists, &mut found)?;
    let values = names_of_values(rule, draft);
    find_under_each(Lying::AsValue, members, values, &mut found)?;
    Ok(found)
}

/// Returns the subschemas of a schema, in order, each with its path.
///
/// # Errors
///
/// Out of memory.
pub fn subschemas_found<'v>(
    alloc: Global,
    rule: Rule,
    draft: Draft,
    schema: &'v Value,
) -> Result<Vec<FoundSchema<'v>>, OutOfMemory>
    ensures found { ListsFound result (subschemas_in rule draft (view schema.now)) }
{
    match schema {
        Value::Object(members) => {
            if any_names_schemas(rule, members) {
                found_in(alloc, rule, draft, members)
            } else {
                Ok(Vec::new(alloc))
            }
        }
        Value::Null => Ok(Vec::new(alloc)),
        Value::Bool(_) => Ok(Vec::new(alloc)),
        Value::Number(_) => Ok(Vec::new(alloc)),
        Value::String(_) => Ok(Vec::new(alloc)),
        Value::Array(_) => Ok(Vec::new(alloc)),
    }
}

/// Returns the last keyword, if it is this one. A clone allocates nothing.
fn keyword_again(last: &Option<RcStr>, keyword: &str) -> Result<Option<RcStr>, OutOfMemory>
    ensures same { IfOk result (λ again. IfSome again (λ k. rc_str_bytes k ≡ keyword.now)) }
{
    match last {
        Some(last) => {
            if last.as_str() == keyword {
                Ok(Some(last.clone()?))
            } else {
                Ok(None)
            }
        }
        None => Ok(None),
    }
}

/// Returns a keyword as shared text.
///
/// It is a clone of `last` if that is the same keyword, so that the subschemas under one keyword
/// share its text. The keyword becomes the last one.
fn keyword_of(alloc: Global, last: &mut Option<RcStr>, keyword: &str) -> Result<RcStr, OutOfMemory>
    ensures keyword { Shows rc_str_bytes result keyword.now }
{
    if let Some(again) = keyword_again(last, keyword)? {
        return Ok(again);
    }
    let first = RcStr::from_str(alloc, keyword)?;
    *last = Some(first.clone()?);
    Ok(first)
}

/// Returns the place of a subschema of the schema at a place.
///
/// `last` is the keyword of the subschema before it.
fn place_found(
    alloc: Global,
    place: &SchemaPlace,
    last: &mut Option<RcStr>,
    found: &FoundSchema<'_>,
) -> Result<SchemaPlace, OutOfMemory>
    ensures place { Shows place_of result (at_path (place_of place.now) (path_of found.now)) }
{
    let keyword = keyword_of(alloc, last, found.keyword)?;
    let mut path = place.path.with_room(alloc, 2)?;
    path.push(SchemaStep::Member(keyword))?;
    found.add_inside(alloc, &mut path)?;
    Ok(SchemaPlace {
        document: place.document,
        path,
    })
}

fn places_found(
    alloc: Global,
    place: &SchemaPlace,
    found: &[FoundSchema<'_>],
) -> Result<Vec<SchemaPlace>, OutOfMemory>
    ensures places { ListsPlaces result place.now (map path_of found.now) }
{
    let mut places = Vec::with_capacity(alloc, found.len())?;
    let mut last = None;
    for one in found {
        places.push(place_found(alloc, place, &mut last, one)?)?;
    }
    Ok(places)
}

fn placed_found<'v>(
    alloc: Global,
    place: &SchemaPlace,
    found: &[FoundSchema<'v>],
) -> Result<Vec<PlacedSchema<'v>>, OutOfMemory>
    ensures placed { ListsPlaced result place.now (map found_of found.now) }
{
    let mut placed = Vec::with_capacity(alloc, found.len())?;
    let mut last = None;
    for one in found {
        let below = place_found(alloc, place, &mut last, one)?;
        placed.push(PlacedSchema {
            place: below,
            value: Some(one.schema),
        })?;
    }
    Ok(placed)
}

/// Returns the subschemas of the schema at a place, each with its own place.
///
/// They are in order.
///
/// # Errors
///
/// Out of memory.
pub fn subschemas_placed<'v>(
    alloc: Global,
    rule: Rule,
    draft: Draft,
    place: &SchemaPlace,
    schema: &'v Value,
) -> Result<Vec<PlacedSchema<'v>>, OutOfMemory>
    ensures placed { ListsPlaced result place.now (subschemas_in rule draft (view schema.now)) }
{
    let found = subschemas_found(alloc, rule, draft, schema)?;
    placed_found(alloc, place, found.as_slice())
}

/// Returns the places of the subschemas of the schema at a place, in order.
///
/// # Errors
///
/// Out of memory.
pub fn subschemas(
    alloc: Global,
    rule: Rule,
    draft: Draft,
    place: &SchemaPlace,
    schema: &Value,
) -> Result<Vec<SchemaPlace>, OutOfMemory>
    ensures places { ListsPlaces result place.now (subschemas rule (draft_of draft) (view schema.now)) }
{
    let found = subschemas_found(alloc, rule, draft, schema)?;
    places_found(alloc, place, found.as_slice())
}
