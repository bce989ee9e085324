//! The files that references lead to, from document to document.
ghost use Rattle.std.specs.Prelude.{◌≡◌, ◌++◌, ◌∷◌, [], IfOk, OnOk, flat_map, map, string_bytes};
ghost use Rattle.theory_definitions.specs.Pointer.{pointer_to};
ghost use Rattle.schema_drafts.specs.KeywordViews.{draft_of};
ghost use Rattle.schema_traits.specs.Showing.{Shows};
ghost use Rattle.schema_files.specs.Gathering.{AreNew, is_among, supplied_references, taken_by, taken_uris};
ghost use Rattle.schema_files.specs.GatheringViews.{Follows, KeepsNew, LeadOn, file_references, supplied_of, uri_of};
ghost use Rattle.schema_files.specs.ReferenceViews.{reference_of};

use crate::file_uris::path_of_uri;
use crate::references::{Reference, references_in};
use schema_drafts::Draft;
use schema_reports::OutOfMemory;
use schema_traits::SchemaPath;
use serde_json::Value;
use standard_subschemas::{Rule, detected, normal_uri, root_base, without_fragment};
use std::alloc::Global;

/// Reads JSON files.
pub trait Files {
    /// Reads the value of the file at a path.
    ///
    /// If there is none, the inner `Err` says why.
    ///
    /// # Errors
    ///
    /// Out of memory.
    fn read(&self, alloc: Global, path: &str) -> Result<Result<Value, String>, OutOfMemory>;
}

/// A document that is at hand, and its URI.
#[derive(Clone, Copy)]
pub struct Supplied<'a> {
    pub uri: &'a str,
    pub value: &'a Value,
}

/// A file that a reference led to.
#[derive(Drop)]
pub struct LinkedFile {
    pub uri: String,
    /// The value, or why there is none.
    pub content: Result<Value, String>,
    /// The URI of the document with the reference.
    pub from: String,
    /// The place of the reference.
    pub path: SchemaPath,
}

impl LinkedFile {
    /// Returns where the reference stands: its document's URI, `#`, and the pointer to it.
    ///
    /// # Errors
    ///
    /// Out of memory.
    pub fn reference(&self, alloc: Global) -> Result<String, OutOfMemory>
        ensures reference { Shows string_bytes result (string_bytes self.now.from ++ 35 ∷ pointer_to self.now.path) }
    {
        let mut text = self.from.clone()?;
        text.push_str("#")?;
        text.push_str(self.path.pointer(alloc)?.as_str())?;
        Ok(text)
    }
}

/// Adds the URIs under which references find a document.
fn add_taken(
    alloc: Global,
    draft: Draft,
    document: Supplied<'_>,
    taken: &mut Vec<String>,
) -> Result<(), OutOfMemory>
    ensures added { OnOk result (map string_bytes taken.new.items
        ≡ map string_bytes taken.old.items ++ taken_by (draft_of draft) (supplied_of document.entry)) }
{
    taken.push(normal_uri(alloc, without_fragment(document.uri))?)?;
    let draft = detected(draft, document.value);
    let base = root_base(alloc, Rule::Standard, document.uri, draft, document.value)?;
    taken.push(base)?;
    Ok(())
}

/// Returns the URIs under which references find the documents.
fn taken_uris(
    alloc: Global,
    draft: Draft,
    supplied: &[Supplied<'_>],
) -> Result<Vec<String>, OutOfMemory>
    ensures taken { IfOk result (λ us. map string_bytes us.items ≡ taken_uris (draft_of draft) (map supplied_of supplied.now)) }
{
    let mut taken = Vec::new(alloc);
    for document in supplied {
        add_taken(alloc, draft, *document, &mut taken)?;
    }
    Ok(taken)
}

fn is_taken(uri: &str, taken: &[String]) -> bool
    ensures taken { result ≡ is_among uri.now (map string_bytes taken.now) }
{
    for other in taken {
        if other.as_str() == uri {
            return true;
        }
    }
    false
}

fn is_linked(uri: &str, files: &[LinkedFile]) -> bool
    ensures linked { result ≡ is_among uri.now (map uri_of files.now) }
{
    for file in files {
        if file.uri.as_str() == uri {
            return true;
        }
    }
    false
}

/// What is at hand, and how files are read.
#[derive(Clone, Copy)]
struct Reading<'a, F> {
    alloc: Global,
    disk: &'a F,
    draft: Draft,
    taken: &'a [String],
}

impl<F: Files> Reading<'_, F> {
    /// Reads the file that a reference leads to.
    fn read(&self, path: &str, from: &str, reference: &Reference) -> Result<LinkedFile, OutOfMemory>
        ensures uri { IfOk result (λ f. uri_of f ≡ string_bytes reference.now.uri) }
    {
        let content = self.disk.read(self.alloc, path)?;
        Ok(LinkedFile {
            uri: reference.uri.clone()?,
            content,
            from: String::from_str(self.alloc, from)?,
            path: reference.path.clone()?,
        })
    }

    #[tactic(auto, using(crate::proofs::Following::is_linked, crate::proofs::Following::is_read, crate::proofs::Following::is_taken, crate::proofs::Following::no_file, crate::proofs::Adding::pushed))]
    /// Follows a reference, if it leads to a file that is not at hand.
    fn follow(
        &self,
        from: &str,
        reference: &Reference,
        files: &mut Vec<LinkedFile>,
    ) -> Result<(), OutOfMemory>
        ensures new { KeepsNew result (map string_bytes self.now.taken.now) files.old files.new }
        ensures follows { OnOk result (Follows (map string_bytes self.now.taken.now) files.old.items files.new.items (reference_of reference.now ∷ [])) }
    {
        let uri = reference.uri.as_str();
        if is_taken(uri, self.taken) || is_linked(uri, files.as_slice()) {
            return Ok(());
        }
        if let Some(path) = path_of_uri(self.alloc, uri)? {
            let file = self.read(path.as_str(), from, reference);
            drop(path);
            files.push(file?)?;
        }
        Ok(())
    }

    #[tactic(auto, using(crate::proofs::Following::starts, crate::proofs::Following::turn, crate::proofs::Following::turned))]
    fn follow_each(
        &self,
        from: &str,
        references: &[Reference],
        files: &mut Vec<LinkedFile>,
    ) -> Result<(), OutOfMemory>
        ensures new { KeepsNew result (map string_bytes self.now.taken.now) files.old files.new }
        ensures follows { OnOk result (Follows (map string_bytes self.now.taken.now) files.old.items files.new.items (map reference_of references.now)) }
    {
        for reference in references {
            self.follow(from, reference, files)?;
        }
        Ok(())
    }

    /// Follows the references in a document.
    fn follow_in(
        &self,
        document: Supplied<'_>,
        files: &mut Vec<LinkedFile>,
    ) -> Result<(), OutOfMemory>
        ensures new { KeepsNew result (map string_bytes self.now.taken.now) files.old files.new }
        ensures follows { OnOk result (Follows (map string_bytes self.now.taken.now) files.old.items files.new.items
            (supplied_references (draft_of self.now.draft) (supplied_of document.entry))) }
    {
        let references = references_in(self.alloc, document.uri, self.draft, document.value)?;
        self.follow_each(document.uri, references.as_slice(), files)
    }

    /// Returns the references in a file, if it has a value.
    fn references_of(&self, file: &LinkedFile) -> Result<Vec<Reference>, OutOfMemory>
        ensures references { IfOk result (λ rs. map reference_of rs.items ≡ file_references (draft_of self.now.draft) file.now) }
    {
        match &file.content {
            Ok(value) => references_in(self.alloc, file.uri.as_str(), self.draft, value),
            Err(_) => Ok(Vec::new(self.alloc)),
        }
    }

    #[tactic(auto, using(crate::proofs::Following::starts, crate::proofs::Following::next_file, crate::proofs::Following::last_file))]
    /// Follows the references in the files, those of files that are added too.
    fn follow_files(&self, files: &mut Vec<LinkedFile>) -> Result<(), OutOfMemory>
        ensures new { KeepsNew result (map string_bytes self.now.taken.now) files.old files.new }
        ensures follows { OnOk result (Follows (map string_bytes self.now.taken.now) files.old.items files.new.items
            (flat_map (file_references (draft_of self.now.draft)) files.new.items)) }
    {
        for index in 0..usize::MAX {
            let Some(file) = files.get(index) else {
                break;
            };
            let from = file.uri.clone()?;
            let references = self.references_of(file)?;
            self.follow_each(from.as_str(), references.as_slice(), files)?;
        }
        Ok(())
    }

    #[tactic(auto, using(crate::proofs::Following::next_document, crate::proofs::Following::all_lead))]
    /// Returns the files that references lead to, from these documents on.
    fn files_from(&self, supplied: &[Supplied<'_>]) -> Result<Vec<LinkedFile>, OutOfMemory>
        ensures new { IfOk result (λ fs. AreNew (map string_bytes self.now.taken.now) (map uri_of fs.items)) }
        ensures lead { IfOk result (λ fs. LeadOn (map string_bytes self.now.taken.now) (draft_of self.now.draft)
            (map supplied_of supplied.now) fs.items) }
    {
        let mut files = Vec::new(self.alloc);
        for document in supplied {
            self.follow_in(*document, &mut files)?;
        }
        self.follow_files(&mut files)?;
        Ok(files)
    }
}

/// Returns the files that references lead to, from the documents at hand on.
///
/// A file is read where a reference in one of the documents, or in a file that was read before, has
/// its URI, and no document is found under it. `draft` is that of documents that do not name theirs.
///
/// # Errors
///
/// Out of memory. A file that has no value is among the files, with the reason.
pub fn linked_files<F: Files>(
    alloc: Global,
    disk: &F,
    draft: Draft,
    supplied: &[Supplied<'_>],
) -> Result<Vec<LinkedFile>, OutOfMemory>
    ensures new { IfOk result (λ fs. AreNew (taken_uris (draft_of draft) (map supplied_of supplied.now)) (map uri_of fs.items)) }
    ensures lead { IfOk result (λ fs. LeadOn (taken_uris (draft_of draft) (map supplied_of supplied.now)) (draft_of draft)
        (map supplied_of supplied.now) fs.items) }
{
    let taken = taken_uris(alloc, draft, supplied)?;
    let reading = Reading {
        alloc,
        disk,
        draft,
        taken: taken.as_slice(),
    };
    reading.files_from(supplied)
}
