//! The answers of a `Context` that no call of the engine requests.
//!
//! A table's makers may request them, so no row of `test_check_rows` covers them. They include
//! whether formats are checked: the option decides, or else the vocabularies, or the draft if it is
//! before 2019-09.
use schema_drafts::{Draft, Vocabulary, VocabularySet};
use schema_keys::{CompileOptions, Context, SchemaKey};
use schema_reports::{Location, OutOfMemory};
use schema_traits::Resolver;
use serde_json::Value;
use standard_resolver::{Document, DocumentResolver, Rule};
use std::alloc::Global;
use test_rows::{column, number_at, push_all, text_at};

fn draft_of(number: Option<usize>) -> Draft {
    match number {
        Some(4) => Draft::Draft4,
        Some(6) => Draft::Draft6,
        Some(7) => Draft::Draft7,
        Some(2019) => Draft::Draft201909,
        Some(2020) => Draft::Draft202012,
        _ => Draft::Unknown,
    }
}

fn vocabulary_of(name: &str) -> Vocabulary {
    match name {
        "format-annotation" => Vocabulary::FormatAnnotation,
        "format-assertion" => Vocabulary::FormatAssertion,
        "validation" => Vocabulary::Validation,
        _ => Vocabulary::Core,
    }
}

/// Returns the key of a row, if the resolver has a document under its URI.
fn key_of<R: Resolver>(
    alloc: Global,
    resolver: &R,
    row: &Value,
) -> Result<Option<SchemaKey<R::State>>, OutOfMemory> {
    let vocabularies = VocabularySet::new(alloc).with(vocabulary_of(text_at(row, 4)))?;
    let location = Location::from_escaped(alloc, text_at(row, 6))?;
    let resource_base = Location::from_escaped(alloc, text_at(row, 7))?;
    match resolver.root(alloc, text_at(row, 2))? {
        None => Ok(None),
        Some((state, place)) => Ok(Some(SchemaKey {
            place,
            state,
            draft: draft_of(number_at(row, 3)),
            vocabularies,
            location,
            resource_base,
            resource_start: number_at(row, 8).unwrap_or(0),
        })),
    }
}

/// Adds the context's own absolute location, if it has one.
fn push_located<R: Resolver>(context: &Context<R>, log: &mut String) -> Result<(), OutOfMemory> {
    match context.absolute_location(context.location())? {
        None => log.push_str("none"),
        Some(absolute) => {
            let pushed = log.push_str(absolute.as_str());
            drop(absolute);
            pushed
        }
    }
}

/// Adds the absolute location, resolved from the value that is kept for it.
fn push_located_later<R: Resolver>(
    context: &Context<R>,
    log: &mut String,
) -> Result<(), OutOfMemory> {
    match context.deferred_absolute_location()? {
        None => log.push_str(" none"),
        Some(kept) => {
            let absolute = kept.resolve(context.location())?;
            let pushed = push_all(log, &[" ", absolute.as_str()]);
            drop(absolute);
            pushed
        }
    }
}

/// Returns a word if this holds, and otherwise an empty text.
fn where_true(holds: bool, word: &str) -> &str {
    if holds { word } else { "" }
}

/// Adds the end of the location, and other answers of the context.
///
/// The end comes after the part that the last reference leads to. The other answers are whether
/// numbers with an integer's value are integers, which of three vocabularies are in force, and
/// whether formats are checked.
fn push_known<R: Resolver>(context: &Context<R>, log: &mut String) -> Result<(), OutOfMemory> {
    let words = [
        " ",
        context.suffix().unwrap_or("elsewhere"),
        where_true(context.supports_integer_valued_numbers(), " integers"),
        where_true(context.has_vocabulary(&Vocabulary::Core), " core"),
        where_true(
            context.has_vocabulary(&Vocabulary::Validation),
            " validation",
        ),
        where_true(
            context.has_vocabulary(&Vocabulary::Applicator),
            " applicator",
        ),
        where_true(context.validates_formats_by_default(), " formats"),
    ];
    push_all(log, &words)
}

fn push_told<R: Resolver>(context: &Context<R>, log: &mut String) -> Result<(), OutOfMemory> {
    push_located(context, log)?;
    push_located_later(context, log)?;
    push_known(context, log)
}

/// Adds the answers of the context of a key, with this option for formats.
fn push_context<R: Resolver>(
    alloc: Global,
    resolver: &R,
    key: &SchemaKey<R::State>,
    formats: Option<bool>,
    log: &mut String,
) -> Result<(), OutOfMemory> {
    let options = CompileOptions {
        formats,
        declared: Vec::new(alloc),
        node_limit: 1,
    };
    let context = Context {
        alloc,
        resolver,
        options: &options,
        key,
    };
    let told = push_told(&context, log);
    drop(options);
    told
}

/// Adds the answers of the context of a row's key.
fn tell_of<R: Resolver>(
    alloc: Global,
    resolver: &R,
    row: &Value,
    log: &mut String,
) -> Result<(), OutOfMemory> {
    match key_of(alloc, resolver, row)? {
        None => log.push_str("no document"),
        Some(key) => {
            let told = push_context(alloc, resolver, &key, column(row, 5).as_bool(), log);
            drop(key);
            told
        }
    }
}

/// Adds the answers of the context of a row, with the resolver of its schema.
pub(crate) fn tell_context(
    alloc: Global,
    row: &Value,
    log: &mut String,
) -> Result<(), OutOfMemory> {
    let root = Document {
        uri: String::from_str(alloc, "json-schema:///")?,
        value: column(row, 1),
    };
    let others = Vec::new(alloc);
    let vocabularies = VocabularySet::new(alloc);
    let resolver = DocumentResolver::new(
        alloc,
        Rule::Narrow,
        Draft::Draft202012,
        root,
        others,
        vocabularies,
    )?;
    let told = tell_of(alloc, &resolver, row, log);
    drop(resolver);
    told
}

// The answers: the absolute location twice, the end of the location after the part that the last
// reference leads to, and the others. Then schema, URI of a document, draft (0 for an unknown one),
// vocabulary in force, whether formats are to be checked, location, the part of it that the last
// reference leads to, and the number of its bytes outside the resource.
//
// The first two rows are in a resource inside another. In the drafts before 2019-09 each vocabulary
// is in force, and formats are checked; in draft 4 the number 1.0 is not an integer. The other rows
// are at a root whose URI is not shown. The option not to check formats holds in every draft,
// whatever vocabulary is in force.
pub(crate) const CONTEXTS: &str = r##"[
["http://x/e#/$defs/t http://x/e#/$defs/t /$defs/t integers core validation",
 {"$defs":{"e":{"$id":"http://x/e","$defs":{"t":{"type":"string"}}}}},
 "http://x/e", 2020, "validation", null, "/$defs/e/$defs/t", "/$defs/e", 8],
["http://x/e#/$defs/t http://x/e#/$defs/t /$defs/t core validation applicator formats",
 {"$defs":{"e":{"$id":"http://x/e","$defs":{"t":{"type":"string"}}}}},
 "http://x/e", 4, "validation", null, "/$defs/e/$defs/t", "/$defs/e", 8],
["none none  integers core validation applicator formats", {}, "json-schema:///", 7, "core", null, "", "", 0],
["none none  integers core", {}, "json-schema:///", 2020, "format-annotation", null, "", "", 0],
["none none  integers core formats", {}, "json-schema:///", 2020, "format-assertion", null, "", "", 0],
["none none  core validation applicator", {}, "json-schema:///", 4, "format-assertion", false, "", "", 0],
["none none  integers core validation applicator", {}, "json-schema:///", 6, "format-assertion", false, "", "", 0],
["none none  integers core validation applicator", {}, "json-schema:///", 7, "format-assertion", false, "", "", 0],
["none none  integers core", {}, "json-schema:///", 2019, "format-assertion", false, "", "", 0],
["none none  integers core", {}, "json-schema:///", 2020, "format-assertion", false, "", "", 0],
["none none  integers core", {}, "json-schema:///", 0, "format-assertion", false, "", "", 0]
]"##;
