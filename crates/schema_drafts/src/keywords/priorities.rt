ghost use Rattle.std.specs.Prelude.{◌≡◌, Some, map};
ghost use Rattle.schema_drafts.specs.KeywordTable.{HasFortyTwoRows, LeavesAreCheap, RowsAreInOrder};
ghost use Rattle.schema_drafts.specs.KeywordTable.{builtin_name, keyword_table, leaf_of, priority_of};
ghost use Rattle.schema_drafts.specs.KeywordViews.{builtin_text, keyword_seen};

use crate::keywords::builtin::{BUILTIN_KEYWORDS, BuiltinKeyword};
use crate::keywords::keyword::Keyword;

/// The priority of `$ref`, the first of the references.
pub const REF_PRIORITY: u8 = 70;

/// The priority of a custom keyword: after every keyword of the standard.
pub const CUSTOM_PRIORITY: u8 = 80;

/// Returns the keyword's priority; a smaller one is evaluated earlier.
///
/// Cheap assertions come first, then keywords that apply subschemas, then references, and custom
/// keywords last.
pub fn keyword_priority(keyword: &Keyword) -> u8
    ensures priority { priority_of (keyword_seen keyword.now) ≡ Some result }
{
    match keyword {
        Keyword::Builtin(keyword) => builtin_priority(*keyword),
        Keyword::Custom(_) => CUSTOM_PRIORITY,
    }
}

/// Returns `true` if the keyword is a leaf.
///
/// A leaf looks at the instance itself and applies no subschema.
pub fn keyword_is_leaf(keyword: &Keyword) -> bool
    ensures leaf { leaf_of (keyword_seen keyword.now) ≡ Some result }
{
    match keyword {
        Keyword::Builtin(BuiltinKeyword::ContentSchema) | Keyword::Custom(_) => false,
        Keyword::Builtin(keyword) => builtin_priority(*keyword) < 40,
    }
}

fn builtin_priority(keyword: BuiltinKeyword) -> u8
    ensures priority { priority_of (builtin_name (builtin_text keyword)) ≡ Some result }
{
    match keyword {
        BuiltinKeyword::TypeKeyword => 1,
        BuiltinKeyword::Const => 5,
        BuiltinKeyword::Enum => 6,
        BuiltinKeyword::Minimum => 10,
        BuiltinKeyword::Maximum => 11,
        BuiltinKeyword::ExclusiveMinimum => 12,
        BuiltinKeyword::ExclusiveMaximum => 13,
        BuiltinKeyword::MultipleOf => 14,
        BuiltinKeyword::MinLength => 20,
        BuiltinKeyword::MaxLength => 21,
        BuiltinKeyword::MinItems => 22,
        BuiltinKeyword::MaxItems => 23,
        BuiltinKeyword::MinProperties => 24,
        BuiltinKeyword::MaxProperties => 25,
        BuiltinKeyword::Required => 26,
        BuiltinKeyword::DependentRequired => 27,
        BuiltinKeyword::Pattern => 30,
        BuiltinKeyword::Format => 31,
        BuiltinKeyword::ContentEncoding => 32,
        BuiltinKeyword::ContentMediaType => 33,
        BuiltinKeyword::ContentSchema => 34,
        BuiltinKeyword::UniqueItems => 35,
        BuiltinKeyword::Properties => 40,
        BuiltinKeyword::PatternProperties => 41,
        BuiltinKeyword::AdditionalProperties => 42,
        BuiltinKeyword::PropertyNames => 43,
        BuiltinKeyword::Items => 44,
        BuiltinKeyword::PrefixItems => 45,
        BuiltinKeyword::AdditionalItems => 46,
        BuiltinKeyword::Contains => 47,
        BuiltinKeyword::Dependencies => 48,
        BuiltinKeyword::DependentSchemas => 49,
        BuiltinKeyword::AllOf => 50,
        BuiltinKeyword::AnyOf => 51,
        BuiltinKeyword::OneOf => 52,
        BuiltinKeyword::Not => 53,
        BuiltinKeyword::If => 54,
        BuiltinKeyword::UnevaluatedProperties => 60,
        BuiltinKeyword::UnevaluatedItems => 61,
        BuiltinKeyword::Ref => REF_PRIORITY,
        BuiltinKeyword::RecursiveRef => 71,
        BuiltinKeyword::DynamicRef => 72,
    }
}

/// States the laws of the keyword table. Does nothing when it runs.
///
/// The table has 42 rows with distinct names and priorities, in order of priority, as
/// `BUILTIN_KEYWORDS` lists them. Its leaves are the keywords with a priority below 40 other than
/// `contentSchema`.
pub fn keyword_table_facts()
    ensures rows { HasFortyTwoRows }
    ensures order { RowsAreInOrder }
    ensures listed { map (λ keyword. builtin_text keyword) BUILTIN_KEYWORDS ≡ map (λ row. row.name) keyword_table }
    ensures leaves { LeavesAreCheap }
{}
