//! The table of the standard's keywords, cell by cell, as it is published.
//!
//! The definition that the clauses cite is another copy of it.
use schema_drafts::{
    BuiltinKeyword, Draft, Keyword, KeywordForm, Vocabulary, VocabularySet, builtin_row,
    keyword_is_leaf, keyword_priority,
};
use schema_reports::OutOfMemory;
use serde_json::Value;
use std::alloc::Global;
use test_rows::{column, text_at};

/// Returns the form that a cell names, if the keyword exists.
fn form_in(cell: &str) -> Option<KeywordForm> {
    match cell {
        "-" => None,
        "D" => Some(KeywordForm::Draft4),
        "C" => Some(KeywordForm::Annotating),
        _ => Some(KeywordForm::Plain),
    }
}

/// Returns the vocabulary of a cell's letter.
fn vocabulary_of(letter: &str) -> Vocabulary {
    match letter {
        "V" => Vocabulary::Validation,
        "A" => Vocabulary::Applicator,
        "U" => Vocabulary::Unevaluated,
        _ => Vocabulary::Content,
    }
}

/// Returns the four vocabularies that keywords need, except that of the cell.
fn needed_but(alloc: Global, left_out: &str) -> Result<VocabularySet, OutOfMemory> {
    let mut set = VocabularySet::new(alloc);
    for letter in ["V", "A", "U", "C"] {
        if letter != left_out {
            set.add(vocabulary_of(letter))?;
        }
    }
    Ok(set)
}

/// Returns whether a draft has a row's keyword in this form.
///
/// The draft has these vocabularies, and the keyword has the row's priority and leaf.
fn has(draft: Draft, set: &VocabularySet, row: &Value, form: Option<KeywordForm>) -> bool {
    match builtin_row(draft, set, text_at(row, 0)) {
        None => form.is_none(),
        Some(found) => {
            form == Some(found.entry.form)
                && column(row, 1).as_u64() == Some(u64::from(found.priority))
                && column(row, 2).as_bool() == Some(found.is_leaf)
        }
    }
}

/// Returns whether a draft has the keyword of a row in its cell's form.
///
/// The draft has it with every vocabulary, and also without the one of the cell if the cell needs
/// none. The drafts before 2019-09, whose cells come before the sixth column, have no vocabularies.
fn is_in_draft(
    alloc: Global,
    draft: Draft,
    number: usize,
    row: &Value,
) -> Result<bool, OutOfMemory> {
    let cell = text_at(row, number);
    let form = form_in(cell);
    let without = if number < 6 || cell == "F" {
        form
    } else {
        None
    };
    let all = needed_but(alloc, "")?;
    let others = needed_but(alloc, cell)?;
    Ok(has(draft, &all, row, form) && has(draft, &others, row, without))
}

/// Returns whether each draft has the keyword of a row as the row says.
fn is_in_drafts(alloc: Global, row: &Value) -> Result<bool, OutOfMemory> {
    for (draft, number) in [
        (Draft::Draft4, 3),
        (Draft::Draft6, 4),
        (Draft::Draft7, 5),
        (Draft::Draft201909, 6),
        (Draft::Draft202012, 7),
        (Draft::Unknown, 7),
    ] {
        if !is_in_draft(alloc, draft, number, row)? {
            return Ok(false);
        }
    }
    Ok(true)
}

fn keyword_named(alloc: Global, name: &str) -> Result<Keyword, OutOfMemory> {
    Ok(match BuiltinKeyword::named(name) {
        Some(builtin) => Keyword::from(builtin),
        None => Keyword::custom(String::from_str(alloc, name)?),
    })
}

/// Adds the name of a row's keyword.
///
/// If the keyword is not as the row says, `another` comes before it.
fn push_keyword(
    alloc: Global,
    keyword: &Keyword,
    row: &Value,
    log: &mut String,
) -> Result<(), OutOfMemory> {
    let is_of_row = column(row, 1).as_u64() == Some(u64::from(keyword_priority(keyword)))
        && column(row, 2).as_bool() == Some(keyword_is_leaf(keyword));
    if !is_of_row || !is_in_drafts(alloc, row)? {
        log.push_str("another ")?;
    }
    log.push_str(keyword.as_str())
}

pub(crate) fn tell_keyword(
    alloc: Global,
    row: &Value,
    log: &mut String,
) -> Result<(), OutOfMemory> {
    let keyword = keyword_named(alloc, text_at(row, 0))?;
    let told = push_keyword(alloc, &keyword, row, log);
    drop(keyword);
    told
}

#[test]
fn drafts_rise(rt: HostRuntime) {
    assert!(rt; Draft::Draft4 < Draft::Draft6 && Draft::Draft6 < Draft::Draft7);
    assert!(rt; Draft::Draft7 < Draft::Draft201909);
    assert!(rt; Draft::Draft201909 < Draft::Draft202012 && Draft::Draft202012 < Draft::Unknown);
}

// Name, priority, leaf, and a cell for each of the drafts 4, 6, 7, 2019-09 and 2020-12: `-` if the
// keyword is absent, `F` if it needs no vocabulary, `D` if it needs none and has draft 4's form, or
// the vocabulary that it needs: `V` (validation), `A` (applicator), `U` (unevaluated), or `C`
// (content, as an annotation). Keywords of priority 80 are custom ones.
pub(crate) const KEYWORDS: &str = r##"[
["type", 1, true, "D", "V", "V", "V", "V"],
["const", 5, true, "-", "V", "V", "V", "V"],
["enum", 6, true, "V", "V", "V", "V", "V"],
["minimum", 10, true, "D", "V", "V", "V", "V"],
["maximum", 11, true, "D", "V", "V", "V", "V"],
["exclusiveMinimum", 12, true, "-", "V", "V", "V", "V"],
["exclusiveMaximum", 13, true, "-", "V", "V", "V", "V"],
["multipleOf", 14, true, "V", "V", "V", "V", "V"],
["minLength", 20, true, "V", "V", "V", "V", "V"],
["maxLength", 21, true, "V", "V", "V", "V", "V"],
["minItems", 22, true, "V", "V", "V", "V", "V"],
["maxItems", 23, true, "V", "V", "V", "V", "V"],
["minProperties", 24, true, "V", "V", "V", "V", "V"],
["maxProperties", 25, true, "V", "V", "V", "V", "V"],
["required", 26, true, "V", "V", "V", "V", "V"],
["dependentRequired", 27, true, "-", "-", "-", "V", "V"],
["pattern", 30, true, "V", "V", "V", "V", "V"],
["format", 31, true, "F", "F", "F", "F", "F"],
["contentEncoding", 32, true, "-", "F", "F", "C", "C"],
["contentMediaType", 33, true, "-", "F", "F", "C", "C"],
["contentSchema", 34, false, "-", "-", "-", "C", "C"],
["uniqueItems", 35, true, "V", "V", "V", "V", "V"],
["properties", 40, false, "A", "A", "A", "A", "A"],
["patternProperties", 41, false, "A", "A", "A", "A", "A"],
["additionalProperties", 42, false, "A", "A", "A", "A", "A"],
["propertyNames", 43, false, "-", "A", "A", "A", "A"],
["items", 44, false, "A", "A", "A", "A", "A"],
["prefixItems", 45, false, "-", "-", "-", "-", "A"],
["additionalItems", 46, false, "A", "A", "A", "A", "A"],
["contains", 47, false, "-", "A", "A", "A", "A"],
["dependencies", 48, false, "A", "A", "A", "A", "A"],
["dependentSchemas", 49, false, "-", "-", "-", "A", "A"],
["allOf", 50, false, "A", "A", "A", "A", "A"],
["anyOf", 51, false, "A", "A", "A", "A", "A"],
["oneOf", 52, false, "A", "A", "A", "A", "A"],
["not", 53, false, "A", "A", "A", "A", "A"],
["if", 54, false, "-", "-", "A", "A", "A"],
["unevaluatedProperties", 60, false, "-", "-", "-", "A", "U"],
["unevaluatedItems", 61, false, "-", "-", "-", "A", "U"],
["$ref", 70, false, "F", "F", "F", "F", "F"],
["$recursiveRef", 71, false, "-", "-", "-", "F", "-"],
["$dynamicRef", 72, false, "-", "-", "-", "-", "F"],
["", 80, false, "-", "-", "-", "-", "-"],
["Type", 80, false, "-", "-", "-", "-", "-"],
["typ", 80, false, "-", "-", "-", "-", "-"],
["types", 80, false, "-", "-", "-", "-", "-"],
["$defs", 80, false, "-", "-", "-", "-", "-"],
["then", 80, false, "-", "-", "-", "-", "-"],
["else", 80, false, "-", "-", "-", "-", "-"],
["$anchor", 80, false, "-", "-", "-", "-", "-"],
["even", 80, false, "-", "-", "-", "-", "-"]
]"##;
