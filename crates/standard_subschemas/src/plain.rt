//! Schemas that do not concern a resolver.
//!
//! They have no subschemas, no identifier and no name.
ghost use Rattle.std.specs.Prelude.{◌≡◌, IsTrue};
ghost use Rattle.serde_json.specs.View.{view};
ghost use Rattle.standard_subschemas.specs.declared.rules.Rule.TheVariants.{Narrow, Standard};
ghost use Rattle.standard_subschemas.specs.FoundSchemas.{any_names_schemas, names_schemas};
ghost use Rattle.standard_subschemas.specs.PlainSchemas.{IsPlain, any_speaks, speaks};
ghost use Rattle.schema_traits.specs.Readings.{fields};

use crate::rules::Rule;
use serde_json::{Map, Value};

/// Returns whether subschemas may lie under this name in any draft.
fn names_schemas(rule: Rule, name: &str) -> bool
    ensures names { result ≡ names_schemas rule name.now }
{
    match rule {
        Rule::Narrow => names_schemas_narrowly(name),
        Rule::Standard => names_schemas_of_the_standard(name),
    }
}

/// Returns whether subschemas may lie under this name by the standard's rule.
///
/// It compares the name with `type` first, the most common one, which holds no subschemas.
fn names_schemas_of_the_standard(name: &str) -> bool
    ensures names { result ≡ names_schemas Standard name.now }
{
    match name {
        "type" => false,
        "$defs" | "definitions" | "properties" | "patternProperties" => true,
        "dependentSchemas" | "dependencies" => true,
        "allOf" | "anyOf" | "oneOf" | "prefixItems" | "items" => true,
        "not" | "additionalItems" | "additionalProperties" | "contains" | "propertyNames" => true,
        "if" | "then" | "else" => true,
        "unevaluatedItems" | "unevaluatedProperties" | "contentSchema" => true,
        _ => false,
    }
}

fn names_schemas_narrowly(name: &str) -> bool
    ensures names { result ≡ names_schemas Narrow name.now }
{
    match name {
        "type" => false,
        "$defs" | "definitions" | "properties" => true,
        "allOf" | "anyOf" | "oneOf" | "prefixItems" => true,
        "not" | "if" | "then" | "else" | "items" | "propertyNames" => true,
        _ => false,
    }
}

pub(crate) fn any_names_schemas(rule: Rule, members: &Map<String, Value>) -> bool
    ensures any { result ≡ any_names_schemas rule (fields members.now) }
{
    for (name, _) in members {
        if names_schemas(rule, name.as_str()) {
            return true;
        }
    }
    false
}

/// Returns whether the resolver reads the member of this name.
///
/// It reads subschemas, and the schema's identifier, reference and name.
fn speaks(rule: Rule, name: &str) -> bool
    ensures speaks { result ≡ speaks rule name.now }
{
    match name {
        "type" => false,
        "$ref" | "$id" | "id" | "$anchor" | "$dynamicAnchor" => true,
        _ => names_schemas(rule, name),
    }
}

fn any_speaks(rule: Rule, members: &Map<String, Value>) -> bool
    ensures any { result ≡ any_speaks rule (fields members.now) }
{
    for (name, _) in members {
        if speaks(rule, name.as_str()) {
            return true;
        }
    }
    false
}

/// Returns whether no member of a schema concerns the resolver, in any draft.
///
/// `false` may be wrong: the schema may still have no subschemas, no identifier and no name.
pub fn is_plain(rule: Rule, schema: &Value) -> bool
    ensures plain { IsTrue result → IsPlain rule (view schema.now) }
{
    match schema {
        Value::Object(members) => !any_speaks(rule, members),
        _ => false,
    }
}
