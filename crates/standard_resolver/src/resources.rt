//! The resources in documents.
//!
//! By the standard's rule a document is two resources with one root if the identifier of its root
//! differs from the URI that the document is supplied under; both have the identifier's base. Each
//! of the two URIs is taken in normal form, which every URI has that a reference means, and as it is
//! written, since a build asks for it so. If several resources have one URI, the first is found.
//! Entering a later one is refused, because the state holds only a URI as its base, which would mean
//! the first.
ghost use Rattle.std.specs.Prelude.{◌≡◌, ◌∷◌, [], flat_map, map, option_map, slice_get, string_bytes};
ghost use Rattle.serde_json.specs.View.{view};
ghost use Rattle.schema_traits.specs.Readings.{text_read};
ghost use Rattle.schema_traits.specs.ResolverViews.{place_of};
ghost use Rattle.standard_resolver.specs.DocumentResources as spec;
ghost use Rattle.standard_resolver.specs.DocumentResources.{base_in, document_resources, embedded, embedded_resources};
ghost use Rattle.standard_resolver.specs.DocumentResources.{identified, identified_root, is_recursive, number_of, place_of_resource};
ghost use Rattle.standard_resolver.specs.DocumentResources.{normal_resource, root_visited, table_for, whole_document, written_root};
ghost use Rattle.standard_resolver.specs.DocumentStates.{number_at, resource_under};
ghost use Rattle.standard_resolver.specs.ResourcesGathered.{Gathers};
ghost use Rattle.standard_resolver.specs.DocumentResourceViews.{resource_of};
ghost use Rattle.standard_resolver.specs.DocumentViews.{held, visited_of, document_under};
ghost use Rattle.schema_traits.specs.Showing.{Yields, Shows};

use crate::dialects::Reading;
use crate::documents::Documents;
use crate::names::{Names, names_in};
use crate::walk::{Visited, walked};
use schema_drafts::Draft;
use schema_reports::OutOfMemory;
use schema_traits::{SchemaPath, SchemaPlace};
use serde_json::Value;
use standard_subschemas::{
    Rule, add_number, identifier, normal_uri, own_uri, root_base, uri_of, without_fragment,
    written_uri,
};
use std::alloc::Global;
use std::collections::HashMap;
use std::marker::Model;

/// A resource: a document, or a subschema with an identifier.
///
/// It is recursive if its root has `$recursiveAnchor: true`. `base` is the base inside it, `path`
/// leads to its root, and `named` is the `$schema` that is in force.
#[derive(Drop)]
pub struct Resource {
    pub uri: String,
    pub base: String,
    pub document: usize,
    pub path: SchemaPath,
    pub draft: Draft,
    pub named: Option<String>,
    pub is_recursive: bool,
    pub names: Names,
}

impl Resource {
    /// Returns the place where the resource begins.
    ///
    /// # Errors
    ///
    /// Out of memory.
    pub fn place(&self) -> Result<SchemaPlace, OutOfMemory>
        ensures place { Shows place_of result (place_of_resource (resource_of self.now)) }
    {
        Ok(SchemaPlace {
            document: self.document,
            path: self.path.clone()?,
        })
    }
}

/// The resources in documents, by number, and how the documents are read.
///
/// Contracts see the reading and the list.
#[derive(Drop)]
pub struct Resources<'a> {
    reading: Reading<'a>,
    resources: Vec<Resource>,
    // Maps each URI to the number of its resource.
    numbers: HashMap<String, usize>,
}

impl<'a> Model for Resources<'a> {
    ghost use Rattle.std.specs.Prelude.{map};
    ghost use Rattle.std.specs.HashMap.{get_by_text};
    ghost use Rattle.standard_subschemas.specs.DocumentKeys.{IsNumbered};
    ghost use Rattle.standard_resolver.specs.DocumentResources.{Table, resource_key};
    ghost use Rattle.standard_resolver.specs.DocumentResourceViews.{resource_of};

    ghost Value = { Table };

    ghost view = { λ r. record { reading = r.reading; resources = map resource_of r.resources.items } };

    ghost invariant = { λ r. IsNumbered (map resource_key (map resource_of r.resources.items)) (get_by_text r.numbers) };
}

impl<'a> Resources<'a> {
    /// Returns how the documents are read.
    pub fn reading(&self) -> &Reading<'a>
        ensures reading { result.now ≡ self.now.reading }
    {
        &self.reading
    }

    /// Returns the rule by which the resources were found.
    pub fn rule(&self) -> Rule
        ensures rule { result ≡ self.now.reading.rule }
    {
        self.reading.rule()
    }

    /// Returns the number of the resource with a URI.
    pub fn number_of(&self, uri: &str) -> Option<usize>
        ensures number { result ≡ number_of uri.now self.now.resources }
    {
        self.numbers.get(uri).copied()
    }

    /// Returns the resource with a number.
    pub fn get(&self, number: usize) -> Option<&Resource>
        ensures resource { option_map (λ r. resource_of r.now) result ≡ slice_get self.now.resources number }
    {
        self.resources.get(number)
    }

    /// Returns the resource with a URI.
    pub fn under(&self, uri: &str) -> Option<&Resource>
        ensures resource { option_map (λ r. resource_of r.now) result ≡ resource_under self.now uri.now }
    {
        self.get(self.number_of(uri)?)
    }

    /// Returns the number of the resource with a URI, if it begins at a place.
    pub fn number_at(&self, place: &SchemaPlace, uri: &str) -> Option<usize>
        ensures number { result ≡ number_at self.now (place_of place.now) uri.now }
    {
        let number = self.number_of(uri)?;
        let resource = self.get(number)?;
        if resource.document == place.document && resource.path == place.path {
            Some(number)
        } else {
            None
        }
    }
}

/// Returns whether `$recursiveAnchor` is true.
fn is_recursive(schema: &Value) -> bool
    ensures recursive { result ≡ is_recursive (view schema.now) }
{
    match schema.get("$recursiveAnchor") {
        Some(value) => value.as_bool() == Some(true),
        None => false,
    }
}

fn resource_of(
    alloc: Global,
    reading: &Reading<'_>,
    uri: String,
    base: String,
    document: usize,
    root: &Visited<'_>,
) -> Result<Resource, OutOfMemory>
    ensures resource { Shows resource_of result (spec.resource_of reading.now (string_bytes uri) (string_bytes base) document
        (visited_of root.now)) }
{
    Ok(Resource {
        uri,
        base,
        document,
        path: root.path.clone()?,
        draft: root.dialect.draft,
        named: copied(alloc, root.dialect.named)?,
        is_recursive: is_recursive(root.schema),
        names: names_in(alloc, reading, root)?,
    })
}

fn copied(alloc: Global, text: Option<&str>) -> Result<Option<String>, OutOfMemory>
    ensures text { Shows (option_map string_bytes) result (text_read text.entry) }
{
    match text {
        Some(text) => Ok(Some(String::from_str(alloc, text)?)),
        None => Ok(None),
    }
}

/// The resources gathered so far, and the map from URIs to their numbers.
#[derive(Drop)]
pub struct Gathered {
    pub resources: Vec<Resource>,
    pub numbers: HashMap<String, usize>,
}

/// Adds a resource, unless an earlier one has its URI.
fn add_resource(
    alloc: Global,
    gathered: &mut Gathered,
    resource: Resource,
) -> Result<(), OutOfMemory>
    ensures added { Gathers result gathered.old gathered.new (resource_of resource ∷ []) }
{
    if gathered.numbers.get(resource.uri.as_str()).is_none() {
        let number = gathered.resources.len();
        add_number(
            alloc,
            &mut gathered.numbers,
            Some(resource.uri.as_str()),
            number,
        )?;
        gathered.resources.push(resource)?;
    }
    Ok(())
}

/// Adds the resource of a schema, if its identifier yields a URI.
fn add_identified(
    alloc: Global,
    reading: &Reading<'_>,
    document: usize,
    visited: &Visited<'_>,
    gathered: &mut Gathered,
) -> Result<(), OutOfMemory>
    ensures added { Gathers result gathered.old gathered.new (identified reading.now document (visited_of visited.now)) }
{
    let own = uri_of(
        alloc,
        reading.rule(),
        visited.base.as_str(),
        visited.dialect.draft,
        visited.schema,
    )?;
    if let Some(uri) = own {
        let base = String::from_str(alloc, uri.as_str())?;
        let resource = resource_of(alloc, reading, uri, base, document, visited)?;
        add_resource(alloc, gathered, resource)?;
    }
    Ok(())
}

/// Adds the resource that begins with a schema under a URI, unless an earlier one has it.
fn add_under(
    alloc: Global,
    reading: &Reading<'_>,
    uri: String,
    base: String,
    document: usize,
    root: &Visited<'_>,
    gathered: &mut Gathered,
) -> Result<(), OutOfMemory>
    ensures added { Gathers result gathered.old gathered.new (spec.resource_of reading.now (string_bytes uri) (string_bytes base)
        document (visited_of root.now) ∷ []) }
{
    if gathered.numbers.get(uri.as_str()).is_some() {
        return Ok(());
    }
    let resource = resource_of(alloc, reading, uri, base, document, root)?;
    add_resource(alloc, gathered, resource)
}

/// Adds a document's root under its identifier in the case in which it is written.
fn add_written_root(
    alloc: Global,
    reading: &Reading<'_>,
    document: usize,
    root: &Visited<'_>,
    gathered: &mut Gathered,
) -> Result<(), OutOfMemory>
    ensures added { Gathers result gathered.old gathered.new (written_root reading.now document (visited_of root.now)) }
{
    let Some(id) = identifier(root.dialect.draft, root.schema) else {
        return Ok(());
    };
    let around = root.base.as_str();
    let uri = written_uri(alloc, around, id)?;
    match own_uri(alloc, Rule::Standard, around, id)? {
        Some(base) => add_under(alloc, reading, uri, base, document, root, gathered),
        None => Ok(()),
    }
}

/// Adds a document's root under its identifier, by the standard's rule only.
fn add_identified_root(
    alloc: Global,
    reading: &Reading<'_>,
    document: usize,
    root: &Visited<'_>,
    gathered: &mut Gathered,
) -> Result<(), OutOfMemory>
    ensures added { Gathers result gathered.old gathered.new (identified_root reading.now document (visited_of root.now)) }
{
    match reading.rule() {
        Rule::Narrow => Ok(()),
        Rule::Standard => {
            add_identified(alloc, reading, document, root, gathered)?;
            add_written_root(alloc, reading, document, root, gathered)?;
            Ok(())
        }
    }
}

/// Returns a document's root as a visited schema.
fn root_visited<'a>(
    alloc: Global,
    reading: &Reading<'_>,
    document: usize,
    uri: &str,
    value: &'a Value,
) -> Result<Visited<'a>, OutOfMemory>
    ensures root { Shows visited_of result (root_visited reading.now document (document_under uri.now value.now)) }
{
    Ok(Visited {
        path: SchemaPath::root(alloc),
        base: String::from_str(alloc, without_fragment(uri))?,
        dialect: reading.root_dialect(document, value),
        schema: value,
    })
}

/// Adds the resources of the schemas that a walk visited.
fn add_all_identified(
    alloc: Global,
    reading: &Reading<'_>,
    document: usize,
    all: &[Visited<'_>],
    gathered: &mut Gathered,
) -> Result<(), OutOfMemory>
    ensures added { Gathers result gathered.old gathered.new (flat_map (identified reading.now document) (map visited_of all.now)) }
{
    for visited in all {
        add_identified(alloc, reading, document, visited, gathered)?;
    }
    Ok(())
}

fn add_embedded(
    alloc: Global,
    reading: &Reading<'_>,
    document: usize,
    uri: &str,
    value: &Value,
    gathered: &mut Gathered,
) -> Result<(), OutOfMemory>
    ensures added { Gathers result gathered.old gathered.new (embedded reading.now document (document_under uri.now value.now)) }
{
    let root = root_visited(alloc, reading, document, uri, value)?;
    let base = root_base(alloc, reading.rule(), uri, root.dialect.draft, value)?;
    let all = walked(
        alloc,
        reading,
        true,
        &root.path,
        base.as_str(),
        root.dialect,
        value,
    )?;
    add_identified_root(alloc, reading, document, &root, gathered)?;
    add_all_identified(alloc, reading, document, all.as_slice(), gathered)?;
    Ok(())
}

/// Adds a document that is supplied under a URI, to be found under `own`.
fn add_document_as(
    alloc: Global,
    reading: &Reading<'_>,
    document: usize,
    own: String,
    uri: &str,
    value: &Value,
    gathered: &mut Gathered,
) -> Result<(), OutOfMemory>
    ensures added { let d = document_under uri.now value.now in Gathers result gathered.old gathered.new (spec.resource_of reading.now
        (string_bytes own) (base_in reading.now document d) document (root_visited reading.now document d) ∷ []) }
{
    let root = root_visited(alloc, reading, document, uri, value)?;
    let base = root_base(alloc, reading.rule(), uri, root.dialect.draft, value)?;
    add_under(alloc, reading, own, base, document, &root, gathered)?;
    Ok(())
}

/// Adds a document under its URI in normal form, by the standard's rule only.
fn add_normal(
    alloc: Global,
    reading: &Reading<'_>,
    document: usize,
    uri: &str,
    value: &Value,
    gathered: &mut Gathered,
) -> Result<(), OutOfMemory>
    ensures added { Gathers result gathered.old gathered.new (normal_resource reading.now document (document_under uri.now
        value.now)) }
{
    match reading.rule() {
        Rule::Narrow => Ok(()),
        Rule::Standard => {
            let own = normal_uri(alloc, without_fragment(uri))?;
            add_document_as(alloc, reading, document, own, uri, value, gathered)
        }
    }
}

fn add_document(
    alloc: Global,
    reading: &Reading<'_>,
    document: usize,
    uri: &str,
    value: &Value,
    gathered: &mut Gathered,
) -> Result<(), OutOfMemory>
    ensures added { Gathers result gathered.old gathered.new (whole_document reading.now document (document_under uri.now
        value.now)) }
{
    let own = String::from_str(alloc, without_fragment(uri))?;
    add_document_as(alloc, reading, document, own, uri, value, gathered)?;
    add_normal(alloc, reading, document, uri, value, gathered)?;
    Ok(())
}

fn add_documents(
    alloc: Global,
    reading: &Reading<'_>,
    documents: &Documents<'_>,
    gathered: &mut Gathered,
) -> Result<(), OutOfMemory>
    ensures added { Gathers result gathered.old gathered.new (document_resources reading.now 0 (held documents.now)) }
{
    let uri = documents.uri.as_str();
    add_document(alloc, reading, 0, uri, documents.root, gathered)?;
    for (i, other) in documents.others.iter().enumerate() {
        let uri = other.uri.as_str();
        add_document(alloc, reading, i + 1, uri, other.value, gathered)?;
    }
    Ok(())
}

fn add_all_embedded(
    alloc: Global,
    reading: &Reading<'_>,
    documents: &Documents<'_>,
    gathered: &mut Gathered,
) -> Result<(), OutOfMemory>
    ensures added { Gathers result gathered.old gathered.new (embedded_resources reading.now 0 (held documents.now)) }
{
    let uri = documents.uri.as_str();
    add_embedded(alloc, reading, 0, uri, documents.root, gathered)?;
    for (i, other) in documents.others.iter().enumerate() {
        let uri = other.uri.as_str();
        add_embedded(alloc, reading, i + 1, uri, other.value, gathered)?;
    }
    Ok(())
}

/// Returns the resources in documents, by how these are read.
///
/// Each document is walked once for embedded resources, and each resource once more for its names.
///
/// # Errors
///
/// Out of memory.
pub fn resources_of<'a>(
    alloc: Global,
    reading: Reading<'a>,
    documents: &Documents<'_>,
) -> Result<Resources<'a>, OutOfMemory>
    ensures resources { Yields result (table_for reading.entry (held documents.now)) }
{
    let mut gathered = Gathered {
        resources: Vec::new(alloc),
        numbers: HashMap::new(alloc),
    };
    add_documents(alloc, &reading, documents, &mut gathered)?;
    add_all_embedded(alloc, &reading, documents, &mut gathered)?;
    Ok(Resources {
        reading,
        resources: gathered.resources,
        numbers: gathered.numbers,
    })
}
