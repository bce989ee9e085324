//! Paths from a schema to one of its subschemas, decided by their steps.
ghost use Rattle.std.specs.Prelude.{◌≡◌};
ghost use Rattle.std.specs.List.Sorted.{IsStrictlySortedBy};
ghost use Rattle.std.specs.Map.{keys_of};
ghost use Rattle.std.specs.String.{string_cmp};
ghost use Rattle.serde_json.specs.Find.{get};
ghost use Rattle.serde_json.specs.View.{view};
ghost use Rattle.theory_definitions.specs.Instance.{same_step, to_member};
ghost use Rattle.schema_drafts.specs.KeywordViews.{draft_of};
ghost use Rattle.schema_traits.specs.SchemaViews.{schema_step_of};
ghost use Rattle.standard_subschemas.specs.SubschemaRules.{below_list, below_object, below_value};
ghost use Rattle.standard_resolver.specs.DocumentLookups.{is_subschema};
ghost use Rattle.standard_resolver.specs.OnWay.{leads_to_item, leads_to_member, pairs_below, schema_found, singles_below};
ghost use Rattle.schema_traits.specs.Readings.{value_read};
ghost use Rattle.standard_resolver.specs.OnWay.{pair_among, step_among, below_each};

use schema_drafts::Draft;
use schema_traits::{SchemaPath, SchemaStep};
use serde_json::{Map, Value};
use standard_subschemas::{Rule, is_schema, names_of_lists, names_of_objects, names_of_values};

/// Returns whether a step leads to the member of this name.
fn is_named(step: &SchemaStep, keyword: &str) -> bool
    ensures named { result ≡ same_step (schema_step_of step.now) (to_member keyword.now) }
{
    match step {
        SchemaStep::Member(name) => name.as_str() == keyword,
        SchemaStep::Item(_) => false,
    }
}

fn is_schema_there(value: Option<&Value>) -> bool
    ensures there { result ≡ schema_found (value_read value.entry) }
{
    match value {
        Some(value) => is_schema(value),
        None => false,
    }
}

// States that the names are in order, so each occurs once. Does nothing when it runs.
fn assert_ordered(members: &Map<String, Value>)
    ensures ordered { IsStrictlySortedBy string_cmp (keys_of members.now.entries) }
{
    members.len();
}

/// Returns whether a step leads from an object to a member that is a schema.
fn leads_to_member(value: &Value, step: &SchemaStep) -> bool
    ensures leads { result ≡ leads_to_member (schema_step_of step.now) (view value.now) }
{
    let Some(members) = value.as_object() else {
        return false;
    };
    assert_ordered(members);
    match step {
        SchemaStep::Member(name) => is_schema_there(value.get(name.as_str())),
        SchemaStep::Item(_) => false,
    }
}

/// Returns whether a step leads from a list to an item that is a schema.
fn leads_to_item(value: &Value, step: &SchemaStep) -> bool
    ensures leads { result ≡ leads_to_item (schema_step_of step.now) (view value.now) }
{
    match step {
        SchemaStep::Member(_) => false,
        SchemaStep::Item(index) => is_schema_there(value.get(*index)),
    }
}

/// Returns whether two steps lead to a schema in the object under this name.
fn in_object(schema: &Value, keyword: &str, first: &SchemaStep, second: &SchemaStep) -> bool
    ensures among { result ≡ pair_among first.now second.now (below_object keyword.now (get keyword.now (view schema.now))) }
{
    if !is_named(first, keyword) {
        return false;
    }
    match schema.get(keyword) {
        Some(value) => leads_to_member(value, second),
        None => false,
    }
}

/// Returns whether two steps lead to a schema in the list under this name.
fn in_list(schema: &Value, keyword: &str, first: &SchemaStep, second: &SchemaStep) -> bool
    ensures among { result ≡ pair_among first.now second.now (below_list keyword.now (get keyword.now (view schema.now))) }
{
    if !is_named(first, keyword) {
        return false;
    }
    match schema.get(keyword) {
        Some(value) => leads_to_item(value, second),
        None => false,
    }
}

/// Returns whether a step leads to the schema under this name.
fn at_value(schema: &Value, keyword: &str, step: &SchemaStep) -> bool
    ensures among { result ≡ step_among step.now (below_value keyword.now (get keyword.now (view schema.now))) }
{
    if !is_named(step, keyword) {
        return false;
    }
    match schema.get(keyword) {
        Some(value) => is_schema(value),
        None => false,
    }
}

fn in_objects(schema: &Value, keywords: &[&str], first: &SchemaStep, second: &SchemaStep) -> bool
    ensures among { result ≡ pair_among first.now second.now (below_each below_object keywords.now (view schema.now)) }
{
    for keyword in keywords {
        if in_object(schema, *keyword, first, second) {
            return true;
        }
    }
    false
}

fn in_lists(schema: &Value, keywords: &[&str], first: &SchemaStep, second: &SchemaStep) -> bool
    ensures among { result ≡ pair_among first.now second.now (below_each below_list keywords.now (view schema.now)) }
{
    for keyword in keywords {
        if in_list(schema, *keyword, first, second) {
            return true;
        }
    }
    false
}

fn at_values(schema: &Value, keywords: &[&str], step: &SchemaStep) -> bool
    ensures among { result ≡ step_among step.now (below_each below_value keywords.now (view schema.now)) }
{
    for keyword in keywords {
        if at_value(schema, *keyword, step) {
            return true;
        }
    }
    false
}

/// Returns whether two steps lead to a subschema in an object or a list.
fn is_pair(
    rule: Rule,
    draft: Draft,
    schema: &Value,
    first: &SchemaStep,
    second: &SchemaStep,
) -> bool
    ensures among { result ≡ pair_among first.now second.now (pairs_below rule (draft_of draft) (view schema.now)) }
{
    in_objects(schema, names_of_objects(rule, draft), first, second)
        || in_lists(schema, names_of_lists(rule, draft), first, second)
}

/// Returns whether a step leads to a subschema that is a keyword's value.
fn is_single(rule: Rule, draft: Draft, schema: &Value, step: &SchemaStep) -> bool
    ensures among { result ≡ step_among step.now (singles_below rule (draft_of draft) (view schema.now)) }
{
    at_values(schema, names_of_values(rule, draft), step)
}

/// Returns whether a path leads from a schema to one of its subschemas.
pub fn is_subschema(rule: Rule, draft: Draft, path: &SchemaPath, schema: &Value) -> bool
    ensures subschema { result ≡ is_subschema rule (draft_of draft) path.now (view schema.now) }
{
    let steps = path.steps();
    if steps.len() == 2 {
        return is_pair(rule, draft, schema, &steps[0], &steps[1]);
    }
    if steps.len() == 1 {
        return is_single(rule, draft, schema, &steps[0]);
    }
    false
}
