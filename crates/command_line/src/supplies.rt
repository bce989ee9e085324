//! The schema, and the documents that it may refer to.

use crate::desk::Stop;
use crate::documents::{Document, documents_of};
use crate::options::{Options, STANDARD_INPUT};
use crate::reading::{Fault, read_value, value_of};
use schema_drafts::Draft;
use schema_files::{Files, LinkedFile, Supplied, file_uri, linked_files};
use schema_reports::OutOfMemory;
use serde_json::Value;
use std::alloc::{AllocError, Global};
use std::env;

/// A schema, and the documents that it may refer to.
#[derive(Drop)]
pub struct Supply<'w> {
    /// The URI of the schema's file; from standard input, of the folder that the command runs in.
    pub uri: String,
    pub schema: Value,
    /// The documents of the resources.
    pub documents: Vec<Document<'w>>,
    /// The other files that references lead to.
    pub files: Vec<LinkedFile>,
}

/// The files of this machine.
#[derive(Clone, Copy)]
struct Disk<'a> {
    rt: &'a HostRuntime,
}

fn is_memory(fault: &Fault) -> bool {
    match fault {
        Fault::Unread(_) => false,
        Fault::Unparsed(fault) => fault.is_memory(),
    }
}

impl Files for Disk<'_> {
    fn read(&self, alloc: Global, path: &str) -> Result<Result<Value, String>, OutOfMemory> {
        match read_value(self.rt, path) {
            Ok(value) => Ok(Ok(value)),
            Err(fault) => {
                if is_memory(&fault) {
                    return Err(AllocError);
                }
                let why = format!(in alloc; "{fault}")?;
                Ok(Err(why))
            }
        }
    }
}

/// Returns the folder that the command runs in, without a slash at its end.
///
/// It is the root, where no folder can be found.
fn folder(rt: &HostRuntime) -> Result<String, OutOfMemory> {
    match env::current_dir(rt) {
        Ok(folder) => String::from_str(rt.alloc(), folder.as_str().trim_end_matches('/')),
        Err(_unknown) => Ok(String::new(rt.alloc())),
    }
}

fn uri_of(rt: &HostRuntime, file: &str) -> Result<String, OutOfMemory> {
    let folder = folder(rt)?;
    let file = if file == STANDARD_INPUT { "" } else { file };
    file_uri(rt.alloc(), folder.as_str(), file)
}

/// Returns the files that references lead to, unless none is to be read.
fn files_of(
    rt: &HostRuntime,
    options: &Options<'_>,
    uri: &str,
    schema: &Value,
    documents: &[Document<'_>],
) -> Result<Vec<LinkedFile>, OutOfMemory> {
    let alloc = rt.alloc();
    if !options.linked {
        return Ok(Vec::new(alloc));
    }
    let mut supplied = Vec::new(alloc);
    supplied.push(Supplied { uri, value: schema })?;
    for document in documents {
        supplied.push(Supplied {
            uri: document.uri,
            value: &document.value,
        })?;
    }
    let draft = options.draft.unwrap_or(Draft::Draft202012);
    linked_files(alloc, &Disk { rt }, draft, supplied.as_slice())
}

/// Reads the schema, and the documents that it may refer to.
///
/// If the schema or the file of a resource cannot be read, that is reported. The other files have
/// values or reasons.
pub fn supply_of<'w>(rt: &HostRuntime, options: &Options<'w>) -> Result<Supply<'w>, Stop> {
    let schema = value_of(rt, options.schema)?;
    let documents = documents_of(rt, options.resources.as_slice())?;
    let uri = uri_of(rt, options.schema)?;
    let files = files_of(rt, options, uri.as_str(), &schema, documents.as_slice())?;
    Ok(Supply {
        uri,
        schema,
        documents,
        files,
    })
}
