//! Cases: a schema, documents that its references may lead to, and instances.

use bowtie_protocol::{Case, Engine, Judge};
use jsonschema::{BuildError, BuildOptions, MetaSchemas, StandardValidator, options};
use schema_engine::{Draft, OutOfMemory, limit_text};
use serde_json::Value;
use standard_dialects::standard_draft;
use standard_subschemas::without_fragment;
use std::alloc::{AllocError, Global};

/// How many evaluations a call has open at once at most, which a stack of 8 MiB holds.
const DEPTH_LIMIT: usize = 1000;

/// The engine with the standard's keywords, and the check by the meta-schemas.
#[derive(Clone, Copy)]
pub(crate) struct Harness<'h> {
    pub(crate) metas: &'h MetaSchemas,
}

/// The validator of a case.
#[derive(Clone, Copy)]
struct Asked<'v> {
    validator: &'v StandardValidator,
}

impl Judge for Asked<'_> {
    fn accepts(
        &self,
        alloc: Global,
        instance: &Value,
    ) -> Result<Result<bool, String>, OutOfMemory> {
        let mut work = self.validator.budget();
        match self.validator.is_valid_within(alloc, instance, &mut work) {
            Ok(accepted) => Ok(Ok(accepted)),
            Err(failure) => match self.validator.limit_named(failure) {
                Some(limit) => Ok(Err(limit_text(alloc, limit)?)),
                None => Err(AllocError),
            },
        }
    }
}

/// Returns whether the `$schema` of a case's schema names no draft, and no document of the registry.
fn names_unknown(case: &Case<'_>) -> bool {
    let Some(uri) = case.schema.get("$schema").and_then(Value::as_str) else {
        return false;
    };
    let supplied = match case.body.get("registry") {
        Some(registry) => registry.get(without_fragment(uri)).is_some(),
        None => false,
    };
    !supplied && matches!(standard_draft(uri), Draft::Unknown)
}

/// Returns the options of a case: its draft, and the documents of its registry.
///
/// The draft is set for the schema if its `$schema` is not known.
fn chosen_by<'c>(
    alloc: Global,
    draft: Draft,
    case: &Case<'c>,
) -> Result<BuildOptions<'c>, OutOfMemory> {
    let mut chosen = options(alloc)
        .with_default_draft(draft)
        .with_depth_limit(DEPTH_LIMIT);
    if names_unknown(case) {
        chosen = chosen.with_draft(draft);
    }
    if let Some(registry) = case.body.get("registry").and_then(Value::as_object) {
        for (uri, document) in registry.iter() {
            chosen = chosen.with_document(uri.as_str(), document)?;
        }
    }
    Ok(chosen)
}

/// Answers a case whose schema is refused.
fn refuse(alloc: Global, case: Case<'_>, refused: &BuildError) -> Result<Value, OutOfMemory> {
    let text = format!(in alloc; "{refused}")?;
    case.fault(alloc, text.as_str())
}

impl Engine for Harness<'_> {
    fn answer(&self, alloc: Global, draft: Draft, case: Case<'_>) -> Result<Value, OutOfMemory> {
        let chosen = chosen_by(alloc, draft, &case)?;
        match chosen.build_by(self.metas, case.schema) {
            Ok(validator) => {
                let asked = Asked {
                    validator: &validator,
                };
                let answer = case.results(alloc, &asked);
                drop(validator);
                answer
            }
            Err(refused) => {
                let answer = refuse(alloc, case, &refused);
                drop(refused);
                answer
            }
        }
    }
}
