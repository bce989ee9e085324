//! The parts that the schema of a case is built with.

use bench_parts::BenchMatcher;
use bench_program::narrow_resolver;
use schema_engine::{Draft, OutOfMemory, ValidationOptions, Vocabulary, VocabularySet};
use serde_json::Value;
use standard_resolver::{Document, DocumentResolver, Rule};
use std::alloc::Global;
use test_rows::{Case, texts_of};

/// The options, the resolver, the matcher, and the limit of `build_nested`.
///
/// The limit is how many targets of references are compiled one inside another; it is set if the
/// case has one.
#[derive(Drop)]
pub(crate) struct Setting<'c> {
    pub options: ValidationOptions,
    pub resolver: DocumentResolver<'c>,
    pub matcher: BenchMatcher,
    pub nested: Option<usize>,
}

impl<'c> Setting<'c> {
    pub(crate) fn of(alloc: Global, case: &Case<'c>) -> Result<Setting<'c>, OutOfMemory> {
        Ok(Setting {
            options: options_of(alloc, case)?,
            resolver: resolver_of(alloc, case)?,
            matcher: matcher_of(alloc, case)?,
            nested: case.count("nested"),
        })
    }
}

fn options_of(alloc: Global, case: &Case<'_>) -> Result<ValidationOptions, OutOfMemory> {
    let mut options = plain_options_of(alloc, case);
    if let Some(base) = case.text("base") {
        options = options.with_base_uri(alloc, base)?;
    }
    for uri in case.list("declares") {
        options = options.with_vocabulary(alloc, uri.as_str().unwrap_or(""))?;
    }
    Ok(options)
}

// Returns the options of a case without those that are texts.
fn plain_options_of(alloc: Global, case: &Case<'_>) -> ValidationOptions {
    let mut options = limits_of(alloc, case);
    if let Some(draft) = case.draft("draft") {
        options = options.with_draft(draft);
    }
    if let Some(checked) = case.truth("check") {
        options = options.should_validate_schema(checked);
    }
    if let Some(checked) = case.truth("formats") {
        options = options.should_validate_formats(checked);
    }
    options
}

// Sets the node limit, if the case has one.
fn with_nodes(options: ValidationOptions, limit: Option<usize>) -> ValidationOptions {
    match limit {
        Some(limit) => options.with_node_limit(limit),
        None => options,
    }
}

// Sets the nested limit, if the case has one.
fn with_nested(options: ValidationOptions, limit: Option<usize>) -> ValidationOptions {
    match limit {
        Some(limit) => options.with_nested_limit(limit),
        None => options,
    }
}

// Sets the work limit, if the case has one.
fn with_work(options: ValidationOptions, limit: Option<usize>) -> ValidationOptions {
    match limit {
        Some(limit) => options.with_work_limit(limit as u64),
        None => options,
    }
}

// Sets the limit on depth, if the case has one.
fn with_depth(options: ValidationOptions, limit: Option<usize>) -> ValidationOptions {
    match limit {
        Some(limit) => options.with_depth_limit(limit),
        None => options,
    }
}

// Returns the options of a case with its limits.
fn limits_of(alloc: Global, case: &Case<'_>) -> ValidationOptions {
    let options = with_nodes(ValidationOptions::new(alloc), case.count("limit"));
    let options = with_nested(options, case.count("nested_limit"));
    let options = with_work(options, case.count("work_limit"));
    let options = with_depth(options, case.count("depth_limit"));
    match case.runs("run_limit") {
        Some(limit) => options.with_run_limit(limit),
        None => options,
    }
}

// Returns the custom vocabularies that the resolver requires.
fn required_by(alloc: Global, case: &Case<'_>) -> Result<VocabularySet, OutOfMemory> {
    let mut required = VocabularySet::new(alloc);
    for uri in case.list("requires") {
        let uri = String::from_str(alloc, uri.as_str().unwrap_or(""))?;
        required = required.with(Vocabulary::Custom(uri))?;
    }
    Ok(required)
}

fn document<'c>(alloc: Global, uri: &str, value: &'c Value) -> Result<Document<'c>, OutOfMemory> {
    let uri = String::from_str(alloc, uri)?;
    Ok(Document { uri, value })
}

// Returns the further documents, from pairs of a URI and a value.
fn further_documents<'c>(
    alloc: Global,
    pairs: &'c [Value],
) -> Result<Vec<Document<'c>>, OutOfMemory> {
    let mut documents = Vec::new(alloc);
    for pair in pairs {
        let uri = pair.get(0).and_then(Value::as_str).unwrap_or("");
        let value = pair.get(1).unwrap_or(pair);
        documents.push(document(alloc, uri, value)?)?;
    }
    Ok(documents)
}

// Returns the draft of a case's schemas that name none.
pub(crate) fn default_draft(case: &Case<'_>) -> Draft {
    case.draft("default").unwrap_or(Draft::Draft202012)
}

// Returns the resolver of a case's documents. If the case has a URI for its schema, the schema is
// found under it.
pub(crate) fn resolver_of<'c>(
    alloc: Global,
    case: &Case<'c>,
) -> Result<DocumentResolver<'c>, OutOfMemory> {
    let required = required_by(alloc, case)?;
    let draft = default_draft(case);
    let Some(uri) = case.text("uri") else {
        return narrow_resolver(alloc, draft, case.schema, required);
    };
    let root = document(alloc, uri, case.schema)?;
    let others = further_documents(alloc, case.list("documents"))?;
    DocumentResolver::new(alloc, Rule::Narrow, draft, root, others, required)
}

// Returns a matcher that leaves the matches of a case's `unfinished` patterns unfinished.
fn matcher_of(alloc: Global, case: &Case<'_>) -> Result<BenchMatcher, OutOfMemory> {
    Ok(BenchMatcher::new(texts_of(alloc, case.list("unfinished"))?))
}
