//! The texts of units, stored by the path that led to each unit.
//!
//! A text that is requested again soon is built once, and shared. The stored numbers only propose
//! texts, and each text is compared before it is used. So no fact about the numbers is needed for
//! correctness, and a wrong number costs only time and memory. A search begins at the unit that was
//! requested last, which suits items, and goes on to those that came after it, which suits members.
ghost use Rattle.std.specs.Prelude.{◌≡◌, [], IfOk, IfSome, true};
ghost use Rattle.theory_definitions.specs.Pointer.{escaped, joined};
ghost use Rattle.schema_run_context.specs.EvaluationPaths.{is_under_reference, path_of};
ghost use Rattle.schema_run_context.specs.UnitPaths.{GivesAfter, HasPath, HasSchema, IsAfter, IsUnder, added_text};

use crate::evaluation_path::{EvaluationPath, path_from};
use schema_reports::{Location, OutOfMemory, SharedLocation};
use std::alloc::Global;
use std::mem;

/// The greatest number of units that a search compares.
const LOOKS: usize = 8;

/// The texts of a unit: its evaluation path and its location in the schema.
///
/// `number` is the index at which they are stored.
#[derive(Drop)]
pub struct UnitTexts {
    pub path: SharedLocation,
    pub schema: SharedLocation,
    pub under_reference: bool,
    number: usize,
}

// The texts of a unit that are stored at `number`. Of the units whose paths continue its path,
// `last` is the one that was requested last, or the unit itself if there is none. The units whose
// paths continue the same path form a circle, in which `next` comes after this one.
#[derive(Drop)]
struct KeptUnit {
    path: SharedLocation,
    schema: SharedLocation,
    number: usize,
    last: usize,
    next: usize,
}

/// The texts of the units that were requested.
///
/// A stored text is used only if it equals the one that is requested, so the numbers only say where
/// to look.
#[derive(Drop)]
pub struct UnitPaths {
    kept: Vec<KeptUnit>,
}

// What a text adds to another one: an escaped text, with or without a `/` before it.
#[derive(Clone, Copy)]
struct Added<'a> {
    slash: bool,
    text: &'a str,
}

fn nothing() -> Added<'static>
    ensures nothing { added_text result ≡ [] }
{
    Added {
        slash: false,
        text: "",
    }
}

// Returns whether a name needs no escapes in a pointer. The loop has no early exit, so that many
// bytes are tested in one step.
fn is_bare(name: &[u8]) -> bool
    ensures bare { result ≡ true → escaped name.now ≡ name.now }
{
    let mut bare = true;
    for byte in name {
        bare &= (*byte != b'~') & (*byte != b'/');
    }
    bare
}

#[inline(always)]
fn is_added(text: &[u8], added: Added<'_>) -> bool
    ensures added { result ≡ true → text.now ≡ added_text added.entry }
{
    let more = added.text.as_bytes();
    if !added.slash {
        return text == more;
    }
    match text.split_first() {
        Some((first, rest)) => *first == b'/' && rest == more,
        None => false,
    }
}

// Returns whether a text is another one with the addition. The addition is compared first, since
// most texts differ there.
#[inline(always)]
fn is_after(text: &str, before: &str, added: Added<'_>) -> bool
    ensures after { result ≡ true → IsAfter before.now added.entry text.now }
{
    let text = text.as_bytes();
    let before = before.as_bytes();
    if text.len() < before.len() {
        return false;
    }
    let (head, tail) = text.split_at(before.len());
    is_added(tail, added) && head == before
}

// Returns a text with the addition.
fn made(alloc: Global, before: &str, added: Added<'_>) -> Result<SharedLocation, OutOfMemory>
    ensures made { GivesAfter before.now added.entry result }
{
    let room = added.text.len().saturating_add(1);
    let mut text = Location::with_capacity(alloc, before.len().saturating_add(room))?;
    text.push_escaped(before)?;
    if added.slash {
        text.push_escaped("/")?;
    }
    text.push_escaped(added.text)?;
    SharedLocation::new(alloc, text)
}

// Returns a location in the schema with the addition. Shares the text of the path if that is the
// same.
fn schema_of(
    alloc: Global,
    path: &SharedLocation,
    location: &Location,
    more: Added<'_>,
) -> Result<SharedLocation, OutOfMemory>
    ensures made { GivesAfter location.now more.entry result }
{
    if is_after(path.as_str(), location.as_str(), more) {
        return Ok(path.clone()?);
    }
    made(alloc, location.as_str(), more)
}

impl KeptUnit {
    // Returns a location in the schema with the addition. Shares the stored text if that is the
    // same.
    fn schema(
        &self,
        alloc: Global,
        location: &Location,
        more: Added<'_>,
    ) -> Result<SharedLocation, OutOfMemory>
        ensures made { GivesAfter location.now more.entry result }
    {
        if is_after(self.schema.as_str(), location.as_str(), more) {
            return Ok(self.schema.clone()?);
        }
        made(alloc, location.as_str(), more)
    }
}

impl UnitPaths {
    /// Returns an empty store. Allocates nothing.
    pub fn new(alloc: Global) -> UnitPaths {
        UnitPaths {
            kept: Vec::new(alloc),
        }
    }

    // Returns the unit whose path is `before` with the addition, if it is among the first few whose
    // paths continue the one at this number.
    fn find(&self, number: usize, before: &str, added: Added<'_>) -> Option<&KeptUnit>
        ensures found { IfSome result (λ k. IsAfter before.now added.entry k.now.path) }
    {
        let kept = self.kept.as_slice();
        let mut at = kept.get(number)?.last;
        if at == number {
            return None;
        }
        for _ in 0..LOOKS {
            let unit = kept.get(at)?;
            if is_after(unit.path.as_str(), before, added) {
                return Some(unit);
            }
            at = unit.next;
        }
        None
    }

    // Like `find`, but compares only the unit that was requested last.
    fn last(&self, number: usize, before: &str, added: Added<'_>) -> Option<&KeptUnit>
        ensures found { IfSome result (λ k. IsAfter before.now added.entry k.now.path) }
    {
        let kept = self.kept.as_slice();
        let last = kept.get(number)?.last;
        let unit = kept.get(last)?;
        if is_after(unit.path.as_str(), before, added) {
            Some(unit)
        } else {
            None
        }
    }

    // Records which of the units whose paths continue the one at this number was requested last.
    fn note(&mut self, number: usize, last: usize) {
        if let Some(before) = self.kept.get_mut(number) {
            before.last = last;
        }
    }

    // Adds a unit to the circle of those whose paths continue the one at `before`, and returns the
    // unit that comes after it.
    fn enter_circle(&mut self, before: usize, number: usize) -> usize {
        let last = match self.kept.get_mut(before) {
            Some(unit) => mem::replace(&mut unit.last, number),
            None => return number,
        };
        if last == before {
            return number;
        }
        match self.kept.get_mut(last) {
            Some(brother) => mem::replace(&mut brother.next, number),
            None => number,
        }
    }

    // Stores the texts of a unit, whose path continues the one at `before`.
    fn keep(
        &mut self,
        before: Option<usize>,
        path: SharedLocation,
        schema: SharedLocation,
        under_reference: bool,
    ) -> Result<UnitTexts, OutOfMemory>
        ensures path { HasPath result path }
        ensures schema { HasSchema result schema }
        ensures under { IsUnder result under_reference }
    {
        let number = self.kept.len();
        let next = match before {
            Some(before) => self.enter_circle(before, number),
            None => number,
        };
        self.kept.push(KeptUnit {
            path: path.clone()?,
            schema: schema.clone()?,
            number,
            last: number,
            next,
        })?;
        Ok(UnitTexts {
            path,
            schema,
            under_reference,
            number,
        })
    }

    // Returns the texts of a unit: its path is `before` with `added`, and its location in the
    // schema is `location` with `more`.
    fn texts_after(
        &mut self,
        alloc: Global,
        before: &UnitTexts,
        added: Added<'_>,
        location: &Location,
        more: Added<'_>,
        under_reference: bool,
    ) -> Result<UnitTexts, OutOfMemory>
        ensures path { IfOk result (λ t. IsAfter before.now.path added.entry t.path) }
        ensures schema { IfOk result (λ t. IsAfter location.now more.entry t.schema) }
        ensures under { IsUnder result under_reference }
    {
        match self.find(before.number, before.path.as_str(), added) {
            Some(kept) => {
                let texts = UnitTexts {
                    path: kept.path.clone()?,
                    schema: kept.schema(alloc, location, more)?,
                    under_reference,
                    number: kept.number,
                };
                self.note(before.number, texts.number);
                Ok(texts)
            }
            None => {
                let path = made(alloc, before.path.as_str(), added)?;
                let schema = schema_of(alloc, &path, location, more)?;
                self.keep(Some(before.number), path, schema, under_reference)
            }
        }
    }

    /// Returns the texts of a node's unit, for the node's path and location.
    ///
    /// # Errors
    ///
    /// Out of memory.
    pub fn of_node(
        &mut self,
        alloc: Global,
        path: &EvaluationPath<'_>,
        location: &Location,
    ) -> Result<UnitTexts, OutOfMemory>
        ensures path { HasPath result (path_of path.now) }
        ensures schema { HasSchema result location.now }
        ensures under { IsUnder result (is_under_reference path.now) }
    {
        let under_reference = path.is_under_reference();
        if let EvaluationPath::Across(before, added) = path {
            if let Some(before) = before.kept_texts() {
                let added = Added {
                    slash: false,
                    text: added.as_str(),
                };
                return self.texts_after(alloc, before, added, location, nothing(), under_reference);
            }
        }
        let path = SharedLocation::new(alloc, path.made(alloc)?)?;
        let schema = schema_of(alloc, &path, location, nothing())?;
        self.keep(None, path, schema, under_reference)
    }

    /// Returns the texts of a keyword's unit, for its node's path and location.
    ///
    /// # Errors
    ///
    /// Out of memory.
    pub fn of_keyword(
        &mut self,
        alloc: Global,
        path: &EvaluationPath<'_>,
        name: &str,
        location: &Location,
    ) -> Result<UnitTexts, OutOfMemory>
        ensures path { HasPath result (joined (path_of path.now) name.now) }
        ensures schema { HasSchema result (joined location.now name.now) }
    {
        let under_reference = path.is_under_reference();
        if is_bare(name.as_bytes()) {
            if let Some(before) = path.kept_texts() {
                let added = Added {
                    slash: true,
                    text: name,
                };
                return self.texts_after(alloc, before, added, location, added, under_reference);
            }
        }
        let path = SharedLocation::new(alloc, path.of_keyword(alloc, name, "")?)?;
        let schema = SharedLocation::new(alloc, path_from(alloc, location, name, "")?)?;
        self.keep(None, path, schema, under_reference)
    }

    /// Returns the path of a keyword with this name after a path.
    ///
    /// # Errors
    ///
    /// Out of memory.
    pub fn path_of_keyword(
        &self,
        alloc: Global,
        path: &EvaluationPath<'_>,
        name: &str,
    ) -> Result<SharedLocation, OutOfMemory>
        ensures path { IfOk result (λ l. l ≡ joined (path_of path.now) name.now) }
    {
        if is_bare(name.as_bytes()) {
            if let Some(before) = path.kept_texts() {
                let added = Added {
                    slash: true,
                    text: name,
                };
                if let Some(kept) = self.last(before.number, before.path.as_str(), added) {
                    return Ok(kept.path.clone()?);
                }
            }
        }
        SharedLocation::new(alloc, path.of_keyword(alloc, name, "")?)
    }
}
