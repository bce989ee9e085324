//! The evaluation path of a node, built only if its text is requested.
//!
//! A path is under a reference if it lies below an entry that is a reference. An edge that a maker
//! requested for a reference of its own leads to a child of a keyword, so it does not count.
ghost use Rattle.std.specs.Prelude.{◌≡◌, ◌++◌, IfSome, OnOk, suc, true};
ghost use Rattle.schema_traits.specs.Showing.{Yields};
ghost use Rattle.theory_definitions.specs.Pointer.{joined};
ghost use Rattle.schema_run_context.specs.EvaluationPaths.{GivesPath, edges_in, is_under_reference, path_of};

use crate::unit_paths::UnitTexts;
use schema_reports::{Location, LocationSegment, OutOfMemory};
use std::alloc::Global;

/// The evaluation path that led to a node.
///
/// It is a path that the caller supplied, the path before an edge with what the edge adds to it,
/// the same path as it continues under a reference, or the path of a unit whose texts exist
/// already, with the path that led to the unit. So it holds each edge that was crossed.
#[derive(Clone, Copy)]
pub enum EvaluationPath<'p> {
    Given(&'p Location),
    Across(&'p EvaluationPath<'p>, &'p Location),
    UnderReference(&'p EvaluationPath<'p>),
    Kept(&'p EvaluationPath<'p>, &'p UnitTexts),
}

// Appends the text of a path.
fn push_path(whole: &mut Location, path: &EvaluationPath<'_>) -> Result<(), OutOfMemory>
    ensures pushed { OnOk result (whole.new ≡ whole.old ++ path_of path.now) }
{
    match path {
        EvaluationPath::Given(first) => whole.push_escaped(first.as_str()),
        EvaluationPath::Across(before, added) => {
            push_path(whole, before)?;
            whole.push_escaped(added.as_str())
        }
        EvaluationPath::UnderReference(before) => push_path(whole, before),
        EvaluationPath::Kept(_, texts) => whole.push_escaped(texts.path.as_str()),
    }
}

// Returns the least number of bytes that a keyword's name and the rest take, with the `/` before
// them.
fn room_for(name: &str, rest: &str) -> usize {
    name.len().saturating_add(rest.len()).saturating_add(1)
}

// Appends a keyword's name and the rest to a path.
fn push_keyword(whole: &mut Location, name: &str, rest: &str) -> Result<(), OutOfMemory>
    ensures pushed { OnOk result (whole.new ≡ joined whole.old name.now ++ rest.now) }
{
    whole.push(LocationSegment::Property(name))?;
    whole.push_escaped(rest)
}

impl<'p> EvaluationPath<'p> {
    /// Returns the path that the caller supplies.
    pub fn given(path: &'p Location) -> EvaluationPath<'p>
        ensures same { path_of result ≡ path.now }
        ensures edges { edges_in result ≡ 0 }
    {
        EvaluationPath::Given(path)
    }

    /// Returns the path after an edge that adds this text to it.
    pub fn across(&'p self, added: &'p Location) -> EvaluationPath<'p>
        ensures appended { path_of result ≡ path_of self.now ++ added.now }
        ensures under { is_under_reference result ≡ is_under_reference self.now }
        ensures edges { edges_in result ≡ suc (edges_in self.now) }
    {
        EvaluationPath::Across(self, added)
    }

    /// Returns the same path, as it continues under a reference.
    pub fn under_reference(&'p self) -> EvaluationPath<'p>
        ensures same { path_of result ≡ path_of self.now }
        ensures under { is_under_reference result ≡ true }
        ensures edges { edges_in result ≡ edges_in self.now }
    {
        EvaluationPath::UnderReference(self)
    }

    /// Returns the path of a unit whose texts exist already.
    ///
    /// This path led to the unit.
    pub fn kept(&'p self, texts: &'p UnitTexts) -> EvaluationPath<'p>
        ensures same { path_of result ≡ texts.now.path }
        ensures under { is_under_reference result ≡ texts.now.under_reference }
        ensures edges { edges_in result ≡ edges_in self.now }
    {
        EvaluationPath::Kept(self, texts)
    }

    /// Returns the texts of the unit that this path belongs to, if they exist.
    ///
    /// The path may continue under a reference.
    pub fn kept_texts(&self) -> Option<&'p UnitTexts>
        ensures same { IfSome result (λ t. t.now.path ≡ path_of self.now) }
    {
        match self {
            EvaluationPath::Kept(_, texts) => Some(*texts),
            EvaluationPath::UnderReference(before) => before.kept_texts(),
            _ => None,
        }
    }

    /// Returns whether the path or one that it continues is under a reference.
    pub fn is_under_reference(&self) -> bool
        ensures under { result ≡ is_under_reference self.now }
    {
        match self {
            EvaluationPath::Given(_) => false,
            EvaluationPath::Across(before, _) => before.is_under_reference(),
            EvaluationPath::UnderReference(_) => true,
            EvaluationPath::Kept(_, texts) => texts.under_reference,
        }
    }

    // Returns the number of bytes of the path.
    fn len(&self) -> usize {
        match self {
            EvaluationPath::Given(whole) => whole.as_str().len(),
            EvaluationPath::Across(before, added) => {
                before.len().saturating_add(added.as_str().len())
            }
            EvaluationPath::UnderReference(before) => before.len(),
            EvaluationPath::Kept(_, texts) => texts.path.as_str().len(),
        }
    }

    // Returns the path as an owned location, with room for this many more bytes.
    fn with_room(&self, alloc: Global, more: usize) -> Result<Location, OutOfMemory>
        ensures same { Yields result (path_of self.now) }
    {
        let mut whole = Location::with_capacity(alloc, self.len().saturating_add(more))?;
        push_path(&mut whole, self)?;
        Ok(whole)
    }

    /// Returns the path as an owned location.
    ///
    /// # Errors
    ///
    /// Out of memory.
    pub fn made(&self, alloc: Global) -> Result<Location, OutOfMemory>
        ensures same { Yields result (path_of self.now) }
    {
        self.with_room(alloc, 0)
    }

    /// Returns this path, continued by a keyword's name and the rest.
    ///
    /// # Errors
    ///
    /// Out of memory.
    pub fn of_keyword(&self, alloc: Global, name: &str, rest: &str) -> Result<Location, OutOfMemory>
        ensures path { GivesPath self.now name.now rest.now result }
    {
        let mut whole = self.with_room(alloc, room_for(name, rest))?;
        push_keyword(&mut whole, name, rest)?;
        Ok(whole)
    }
}

/// Returns a location, continued by a keyword's name and the rest.
///
/// # Errors
///
/// Out of memory.
pub fn path_from(
    alloc: Global,
    location: &Location,
    name: &str,
    rest: &str,
) -> Result<Location, OutOfMemory>
    ensures path { Yields result (joined location.now name.now ++ rest.now) }
{
    EvaluationPath::Given(location).of_keyword(alloc, name, rest)
}
