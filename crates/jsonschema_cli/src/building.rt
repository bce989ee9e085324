//! Builds the validator of the schema, and answers by it.

use crate::validating::Validating;
use command_line::{Desk, Document, Engine, Options, Stop, Supply, answer_by, tell, tell_unlinked};
use jsonschema::{BuildError, BuildOptions, MetaError, options as build_options};
use schema_engine::{BuildError as EngineError, OutOfMemory};
use schema_files::LinkedFile;
use std::alloc::Global;

/// Sets the limit on runs, if one is given that is at least 1.
fn with_runs<'a>(chosen: BuildOptions<'a>, limit: Option<u32>) -> BuildOptions<'a> {
    match limit {
        Some(limit) if limit >= 1 => chosen.with_run_limit(limit),
        _ => chosen,
    }
}

fn with_limits<'a>(chosen: BuildOptions<'a>, options: &Options<'_>) -> BuildOptions<'a> {
    let mut chosen = with_runs(chosen, options.run_limit);
    if let Some(limit) = options.work_limit {
        chosen = chosen.with_work_limit(limit);
    }
    if let Some(limit) = options.depth_limit {
        chosen = chosen.with_depth_limit(limit);
    }
    if let Some(limit) = options.nested_limit {
        chosen = chosen.with_nested_limit(limit);
    }
    chosen
}

fn with_documents<'a>(
    chosen: BuildOptions<'a>,
    documents: &'a [Document<'_>],
) -> Result<BuildOptions<'a>, OutOfMemory> {
    let mut chosen = chosen;
    for document in documents {
        chosen = chosen.with_document(document.uri, &document.value)?;
    }
    Ok(chosen)
}

/// Adds the files that have values.
fn with_files<'a>(
    chosen: BuildOptions<'a>,
    files: &'a [LinkedFile],
) -> Result<BuildOptions<'a>, OutOfMemory> {
    let mut chosen = chosen;
    for file in files {
        if let Ok(value) = &file.content {
            chosen = chosen.with_document(file.uri.as_str(), value)?;
        }
    }
    Ok(chosen)
}

/// Returns the options of the build that the command's words ask for.
fn chosen_by<'a>(
    alloc: Global,
    options: &Options<'_>,
    supply: &'a Supply<'_>,
) -> Result<BuildOptions<'a>, OutOfMemory> {
    let mut chosen = build_options(alloc).should_validate_schema(options.checked);
    if let Some(draft) = options.draft {
        chosen = chosen.with_draft(draft);
    }
    if let Some(asserted) = options.formats {
        chosen = chosen.should_validate_formats(asserted);
    }
    let chosen = with_limits(chosen, options).with_base_uri(supply.uri.as_str())?;
    let chosen = with_documents(chosen, supply.documents.as_slice())?;
    with_files(chosen, supply.files.as_slice())
}

/// Returns advice to the user about a refusal of the schema.
fn hint_of(refused: &EngineError) -> &'static str {
    match refused {
        EngineError::NotASchema(_) => "a schema is an object, true or false",
        EngineError::ReferenceNotText(_) => "write the reference as a string",
        EngineError::Lookup(_) | EngineError::MissingRoot(_) => {
            "mend the URI, or hand over its document by --resource URI=FILE; --draft sets the draft"
        }
        EngineError::KeywordRefused(_) => "write this keyword otherwise, or leave it out",
        EngineError::UnsupportedVocabulary(_) => {
            "have the meta-schema require the standard's vocabularies alone"
        }
        EngineError::MetaSchema(_) =>
            "mend the keyword there; --no-check builds the schema unchecked",
        EngineError::NodeLimit(_) => "split the schema, or leave out what no reference needs",
        EngineError::OutOfMemory => "give the process more memory",
    }
}

/// Reports why the meta-schemas are not available.
fn refuse_metas(rt: &HostRuntime, fault: &MetaError) -> Stop {
    tell(
        rt,
        "jsonschema",
        "cannot check schemas",
        fault,
        "this is a fault of the command; tell those who maintain it",
    )
}

/// Returns the file that a refusal is about, and why it has no value.
fn unlinked<'f>(
    refused: &EngineError,
    files: &'f [LinkedFile],
) -> Option<(&'f LinkedFile, &'f str)> {
    let EngineError::Lookup(text) = refused else {
        return None;
    };
    for file in files {
        if let Err(why) = &file.content {
            if text.ends_with(file.uri.as_str()) {
                return Some((file, why.as_str()));
            }
        }
    }
    None
}

fn refuse_schema(
    rt: &HostRuntime,
    options: &Options<'_>,
    supply: &Supply<'_>,
    refused: &EngineError,
) -> Stop {
    match unlinked(refused, supply.files.as_slice()) {
        Some((file, why)) => tell_unlinked(rt, options.schema, refused, file, why),
        None => tell(rt, options.schema, "is refused", refused, hint_of(refused)),
    }
}

/// Reports why there is no validator.
fn refuse(
    rt: &HostRuntime,
    options: &Options<'_>,
    supply: &Supply<'_>,
    refused: &BuildError,
) -> Stop {
    match refused {
        BuildError::Refused(refused) => refuse_schema(rt, options, supply, refused),
        BuildError::MetaSchemaRefused { uri, refused } => {
            tell(rt, uri.as_str(), "is refused", refused, hint_of(refused))
        }
        BuildError::MetaSchemaUnfit { uri: _ } => tell(
            rt,
            options.schema,
            "cannot be checked",
            refused,
            "--no-check builds the schema unchecked",
        ),
        BuildError::MetaSchemas(fault) => refuse_metas(rt, fault),
        BuildError::OutOfMemory => Stop::OutOfMemory,
    }
}

fn answer_chosen(
    rt: &HostRuntime,
    desk: &mut Desk,
    options: &Options<'_>,
    chosen: BuildOptions<'_>,
    supply: &Supply<'_>,
) -> Result<(), Stop> {
    match chosen.build(&supply.schema) {
        Ok(validator) => {
            let asked = Validating {
                validator: &validator,
            };
            let answered = answer_by(rt, desk, options, &asked);
            drop(validator);
            answered
        }
        Err(refused) => {
            let stop = refuse(rt, options, supply, &refused);
            drop(refused);
            Err(stop)
        }
    }
}

/// The engine with the standard's keywords.
pub(crate) struct Standard;

impl Engine for Standard {
    fn answer(
        &self,
        rt: &HostRuntime,
        desk: &mut Desk,
        options: &Options<'_>,
        supply: &Supply<'_>,
    ) -> Result<(), Stop> {
        match chosen_by(rt.alloc(), options, supply) {
            Ok(chosen) => answer_chosen(rt, desk, options, chosen, supply),
            Err(_refused) => Err(Stop::OutOfMemory),
        }
    }
}
