//! Documents that a schema may refer to.

use crate::desk::Stop;
use crate::options::Resource;
use crate::reading::value_of;
use serde_json::Value;

/// A document and its URI.
#[derive(Drop)]
pub struct Document<'w> {
    pub uri: &'w str,
    pub value: Value,
}

/// Returns the documents of the resources, in order.
///
/// If one cannot be read, that is reported.
pub fn documents_of<'w>(
    rt: &HostRuntime,
    resources: &[Resource<'w>],
) -> Result<Vec<Document<'w>>, Stop> {
    let mut documents = Vec::new(rt.alloc());
    for resource in resources {
        let value = value_of(rt, resource.file)?;
        documents.push(Document {
            uri: resource.uri,
            value,
        })?;
    }
    Ok(documents)
}
