//! Places in schemas.
//!
//! The name in a step is a shared string, since each key of a build holds its place from the root
//! of the document.
ghost use Rattle.std.specs.Prelude.{◌≡◌, List, [], ◌∷◌, ◌++◌, IfOk, OnErr, OnOk, length, take, drop, map};
ghost use Rattle.schema_traits.specs.Showing.{Shows, Yields};
ghost use Rattle.std.specs.Cmp.{on_equiv, partial_equiv_from_equiv};
ghost use Rattle.std.specs.Ordering.{on};
ghost use Rattle.theory_definitions.specs.Instance.{same_place, same_step};
ghost use Rattle.schema_reports.specs.SamePlaces.{places_equiv, schema_places_equiv};
ghost use Rattle.theory_definitions.specs.Pointer.{pointer_to, step_text};
ghost use Rattle.theory_definitions.specs.Drafts.{same_schema_place, at_path};
ghost use Rattle.schema_traits.specs.SchemaViews.{schema_step_of};
ghost use Rattle.schema_traits.specs.ResolverViews.{place_of};

use schema_reports::{Location, LocationSegment, OutOfMemory};
use std::alloc::{AllocError, Global};
use std::marker::Model;
use std::rc::RcStr;
use std::slice;

/// A step from a value of a schema to a value inside it.
///
/// All places below a member share its name, so that a clone costs no memory.
#[derive(Drop)]
pub enum SchemaStep {
    Member(RcStr),
    Item(usize),
}

fn same_schema_step(a: &SchemaStep, b: &SchemaStep) -> bool
    ensures same { result ≡ same_step (schema_step_of a.now) (schema_step_of b.now) }
{
    match (a, b) {
        (SchemaStep::Member(x), SchemaStep::Member(y)) => x.as_str() == y.as_str(),
        (SchemaStep::Item(x), SchemaStep::Item(y)) => *x == *y,
        _ => false,
    }
}

fn same_schema_steps(a: &[SchemaStep], b: &[SchemaStep]) -> bool
    ensures same { result ≡ same_place (map schema_step_of a.now) (map schema_step_of b.now) }
{
    if a.len() != b.len() {
        return false;
    }
    for (i, step) in a.iter().enumerate() {
        if !same_schema_step(step, &b[i]) {
            return false;
        }
    }
    true
}

impl Clone for SchemaStep {
    ghost is_clone = { λ s copy. schema_step_of copy ≡ schema_step_of s };

    /// Returns a copy of the step, which shares the name.
    fn clone(&self) -> Result<SchemaStep, AllocError> {
        match self {
            SchemaStep::Member(name) => Ok(SchemaStep::Member(name.clone()?)),
            SchemaStep::Item(index) => Ok(SchemaStep::Item(*index)),
        }
    }
}

fn push_copies(steps: &mut Vec<SchemaStep>, more: &[SchemaStep]) -> Result<(), OutOfMemory>
    ensures added { OnOk result (map schema_step_of steps.new.items ≡ map schema_step_of steps.old.items ++ map schema_step_of more.now) }
{
    for step in more {
        steps.push(step.clone()?)?;
    }
    Ok(())
}

fn with_one_more(
    alloc: Global,
    steps: &[SchemaStep],
    step: SchemaStep,
) -> Result<Vec<SchemaStep>, OutOfMemory>
    ensures added { IfOk result (λ all. map schema_step_of all.items ≡ map schema_step_of steps.now ++ schema_step_of step ∷ []) }
{
    let mut all = Vec::with_capacity(alloc, steps.len().saturating_add(2))?;
    push_copies(&mut all, steps)?;
    all.push(step)?;
    Ok(all)
}

#[tactic(auto, using(crate::proofs::SchemaPaths::map_take, crate::proofs::SchemaPaths::map_take_all))]
fn first_steps<'s>(steps: &'s [SchemaStep], count: usize) -> &'s [SchemaStep]
    ensures first { map schema_step_of result.now ≡ take count (map schema_step_of steps.now) }
{
    if count < steps.len() {
        &steps[..count]
    } else {
        steps
    }
}

#[tactic(auto, using(crate::proofs::SchemaPaths::map_later, crate::proofs::SchemaPaths::map_drop_all))]
fn later_steps<'s>(steps: &'s [SchemaStep], count: usize) -> &'s [SchemaStep]
    ensures later { map schema_step_of result.now ≡ drop count (map schema_step_of steps.now) }
{
    if count < steps.len() {
        &steps[count..]
    } else {
        &[]
    }
}

// Appends a step to a pointer. On `Err` a part of it may have been written.
fn push_schema_step(pointer: &mut Location, step: &SchemaStep) -> Result<(), OutOfMemory>
    ensures pushed { OnOk result (pointer.new ≡ pointer.old ++ step_text (schema_step_of step.now)) }
{
    match step {
        SchemaStep::Member(name) => pointer.push(LocationSegment::Property(name.as_str())),
        SchemaStep::Item(index) => pointer.push(LocationSegment::Index(*index)),
    }
}

// Returns the length in bytes of the pointer of these steps, if no name needs an escape. An index
// counts as its longest form.
fn pointer_room(steps: &[SchemaStep]) -> usize {
    let mut bytes = 0usize;
    for step in steps {
        let more = match step {
            SchemaStep::Member(name) => name.len().saturating_add(1),
            SchemaStep::Item(_) => 21,
        };
        bytes = bytes.saturating_add(more);
    }
    bytes
}

// Appends the pointer of these steps. On `Err` a part of it may have been written.
fn push_pointer_of(pointer: &mut Location, steps: &[SchemaStep]) -> Result<(), OutOfMemory>
    ensures pushed { OnOk result (pointer.new ≡ pointer.old ++ pointer_to (map schema_step_of steps.now)) }
{
    for step in steps {
        push_schema_step(pointer, step)?;
    }
    Ok(())
}

// The steps of a path. Up to two are held inline.
#[derive(Drop)]
enum Steps {
    Root,
    One(SchemaStep),
    Two([SchemaStep; 2]),
    Many(Vec<SchemaStep>),
}

/// A path in a document. Contracts see its steps.
///
/// A path of at most two steps needs no memory of its own.
#[derive(Drop)]
pub struct SchemaPath {
    alloc: Global,
    steps: Steps,
}

impl Model for SchemaPath {
    ghost use Rattle.std.specs.Prelude.{List};
    ghost use Rattle.theory_definitions.specs.Instance.{Step};
    ghost use Rattle.schema_traits.specs.SchemaPaths.{steps_in};

    ghost Value = { List Step };

    ghost view = { λ p. steps_in p.steps };
}

impl SchemaPath {
    /// Returns the path of the document's root.
    pub fn root(alloc: Global) -> SchemaPath
        ensures root { result ≡ [] }
    {
        SchemaPath {
            alloc,
            steps: Steps::Root,
        }
    }

    /// Returns the path of the root, with capacity for this many steps.
    pub fn with_capacity(alloc: Global, steps: usize) -> Result<SchemaPath, OutOfMemory>
        ensures root { Yields result [] }
    {
        if steps <= 2 {
            return Ok(SchemaPath::root(alloc));
        }
        Ok(SchemaPath {
            alloc,
            steps: Steps::Many(Vec::with_capacity(alloc, steps)?),
        })
    }

    /// Returns the steps, starting at the document's root.
    pub fn steps(&self) -> &[SchemaStep]
        ensures steps { map schema_step_of result.now ≡ self.now }
    {
        match &self.steps {
            Steps::Root => &[],
            Steps::One(step) => slice::from_ref(step),
            Steps::Two(steps) => &steps[..],
            Steps::Many(steps) => steps.as_slice(),
        }
    }

    /// Adds a step at the end. On `Err` nothing has changed.
    pub fn push(&mut self, step: SchemaStep) -> Result<(), OutOfMemory>
        ensures pushed { OnOk result (self.new ≡ self.old ++ schema_step_of step ∷ []) }
        ensures unchanged { OnErr result (self.new ≡ self.old) }
    {
        if let Steps::Many(steps) = &mut self.steps {
            steps.push(step)?;
            return Ok(());
        }
        self.steps = match &self.steps {
            Steps::Root => Steps::One(step),
            Steps::One(first) => Steps::Two([first.clone()?, step]),
            _ => Steps::Many(with_one_more(self.alloc, self.steps(), step)?),
        };
        Ok(())
    }

    // On `Err` some of the steps may have been added.
    fn push_steps(&mut self, more: &[SchemaStep]) -> Result<(), OutOfMemory>
        ensures added { OnOk result (self.new ≡ self.old ++ map schema_step_of more.now) }
    {
        if let Steps::Many(steps) = &mut self.steps {
            return push_copies(steps, more);
        }
        for step in more {
            self.push(step.clone()?)?;
        }
        Ok(())
    }

    /// Returns the number of steps.
    pub fn len(&self) -> usize
        ensures count { result ≡ length self.now }
    {
        self.steps().len()
    }

    /// Returns whether the other path begins with this one.
    pub fn is_prefix_of(&self, other: &SchemaPath) -> bool
        ensures prefix { result ≡ same_place self.now (take (length self.now) other.now) }
    {
        same_schema_steps(self.steps(), first_steps(other.steps(), self.steps().len()))
    }

    /// Returns the first `count` steps, or all if there are fewer.
    pub fn first(&self, alloc: Global, count: usize) -> Result<SchemaPath, OutOfMemory>
        ensures first { Yields result (take count self.now) }
    {
        let kept = first_steps(self.steps(), count);
        let mut path = SchemaPath::with_capacity(alloc, kept.len())?;
        path.push_steps(kept)?;
        Ok(path)
    }

    /// Returns the steps after the first `count`.
    pub fn after(&self, alloc: Global, count: usize) -> Result<SchemaPath, OutOfMemory>
        ensures rest { Yields result (drop count self.now) }
    {
        let kept = later_steps(self.steps(), count);
        let mut path = SchemaPath::with_capacity(alloc, kept.len())?;
        path.push_steps(kept)?;
        Ok(path)
    }

    /// Returns a copy of the path, with capacity for `more` further steps.
    pub fn with_room(&self, alloc: Global, more: usize) -> Result<SchemaPath, OutOfMemory>
        ensures same { Yields result self.now }
    {
        let count = self.steps().len().saturating_add(more);
        let mut path = SchemaPath::with_capacity(alloc, count)?;
        path.push_steps(self.steps())?;
        Ok(path)
    }

    /// Returns this path followed by another.
    pub fn append(&self, alloc: Global, rest: &SchemaPath) -> Result<SchemaPath, OutOfMemory>
        ensures appended { Yields result (self.now ++ rest.now) }
    {
        let count = self.steps().len().saturating_add(rest.steps().len());
        let mut path = SchemaPath::with_capacity(alloc, count)?;
        path.push_steps(self.steps())?;
        path.push_steps(rest.steps())?;
        Ok(path)
    }

    /// Returns the JSON Pointer of the path.
    pub fn pointer(&self, alloc: Global) -> Result<Location, OutOfMemory>
        ensures pointer { Yields result (pointer_to self.now) }
    {
        let steps = self.steps();
        let mut pointer = Location::with_capacity(alloc, pointer_room(steps))?;
        push_pointer_of(&mut pointer, steps)?;
        Ok(pointer)
    }
}

impl PartialEq for SchemaPath {
    ghost eq = { same_place };

    ghost laws = { partial_equiv_from_equiv places_equiv };

    /// Returns whether both paths consist of the same steps.
    fn eq(&self, other: &SchemaPath) -> bool {
        same_schema_steps(self.steps(), other.steps())
    }
}

impl Eq for SchemaPath {
    ghost laws = { places_equiv };
}

impl Clone for SchemaPath {
    ghost is_clone = { λ p copy. copy ≡ p };

    /// Returns a copy of the path.
    fn clone(&self) -> Result<SchemaPath, AllocError> {
        let mut path = SchemaPath::with_capacity(self.alloc, self.len())?;
        path.push_steps(self.steps())?;
        Ok(path)
    }
}

/// The number of a document, and a path in it.
#[derive(Drop)]
pub struct SchemaPlace {
    pub document: usize,
    pub path: SchemaPath,
}

impl SchemaPlace {
    /// Returns the place at a path below this one.
    pub fn below(&self, alloc: Global, path: &SchemaPath) -> Result<SchemaPlace, OutOfMemory>
        ensures below { Shows place_of result (at_path (place_of self.now) path.now) }
    {
        Ok(SchemaPlace {
            document: self.document,
            path: self.path.append(alloc, path)?,
        })
    }
}

impl PartialEq for SchemaPlace {
    ghost eq = { on place_of same_schema_place };

    ghost laws = { partial_equiv_from_equiv (on_equiv place_of schema_places_equiv) };

    /// Returns whether both places are the same path in the same document.
    fn eq(&self, other: &SchemaPlace) -> bool {
        self.document == other.document && self.path == other.path
    }
}

impl Eq for SchemaPlace {
    ghost laws = { on_equiv place_of schema_places_equiv };
}

impl Clone for SchemaPlace {
    ghost is_clone = { λ p copy. place_of copy ≡ place_of p };

    /// Returns a copy of the place.
    fn clone(&self) -> Result<SchemaPlace, AllocError> {
        Ok(SchemaPlace {
            document: self.document,
            path: self.path.clone()?,
        })
    }
}
