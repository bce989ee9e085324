//! The names of the keywords that hold subschemas.
ghost use Rattle.schema_drafts.specs.KeywordViews.{draft_of};
ghost use Rattle.standard_subschemas.specs.SubschemaRules.{names_of_lists, names_of_objects, names_of_values};
ghost use Rattle.standard_subschemas.specs.FoundWords.{AreNames};
ghost use Rattle.standard_subschemas.specs.StandardNames as standard;

use crate::rules::Rule;
use schema_drafts::Draft;

/// Returns the keywords whose subschemas are the members of an object.
pub fn names_of_objects(rule: Rule, draft: Draft) -> &'static [&'static str]
    ensures names { AreNames result.now (names_of_objects rule (draft_of draft)) }
{
    match rule {
        Rule::Narrow => &["$defs", "definitions", "properties"],
        Rule::Standard => match draft {
            Draft::Draft4 | Draft::Draft6 | Draft::Draft7 => &[
                "definitions",
                "properties",
                "patternProperties",
                "dependencies",
            ],
            _ => &[
                "$defs",
                "definitions",
                "properties",
                "patternProperties",
                "dependentSchemas",
                "dependencies",
            ],
        },
    }
}

/// Returns the keywords whose subschemas are the items of a list.
pub fn names_of_lists(rule: Rule, draft: Draft) -> &'static [&'static str]
    ensures names { AreNames result.now (names_of_lists rule (draft_of draft)) }
{
    match rule {
        Rule::Narrow => &["allOf", "anyOf", "oneOf", "prefixItems"],
        Rule::Standard => match draft {
            Draft::Draft202012 | Draft::Unknown => &["allOf", "anyOf", "oneOf", "prefixItems"],
            _ => &["allOf", "anyOf", "oneOf", "items"],
        },
    }
}

/// Returns the keywords whose value is itself a subschema.
pub fn names_of_values(rule: Rule, draft: Draft) -> &'static [&'static str]
    ensures names { AreNames result.now (names_of_values rule (draft_of draft)) }
{
    match rule {
        Rule::Narrow => &["not", "if", "then", "else", "items", "propertyNames"],
        Rule::Standard => standard_values(draft),
    }
}

fn standard_values(draft: Draft) -> &'static [&'static str]
    ensures names { AreNames result.now (standard.names_of_values (draft_of draft)) }
{
    match draft {
        Draft::Draft4 => &["not", "items", "additionalItems", "additionalProperties"],
        Draft::Draft6 => &[
            "not",
            "items",
            "additionalItems",
            "additionalProperties",
            "contains",
            "propertyNames",
        ],
        Draft::Draft7 => &[
            "not",
            "items",
            "additionalItems",
            "additionalProperties",
            "contains",
            "propertyNames",
            "if",
            "then",
            "else",
        ],
        _ => &[
            "not",
            "items",
            "additionalItems",
            "additionalProperties",
            "contains",
            "propertyNames",
            "if",
            "then",
            "else",
            "unevaluatedItems",
            "unevaluatedProperties",
            "contentSchema",
        ],
    }
}
