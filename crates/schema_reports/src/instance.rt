//! Instances and their places.
ghost use Rattle.std.specs.Prelude.{◌≡◌, List, [], ◌∷◌, ◌++◌, IfOk, option_map, Option, Some, None, map, IfSome, OnErr, false, OnOk};
ghost use Rattle.std.specs.Prelude.{fold, length, string_bytes};
ghost use Rattle.schema_reports.specs.Showing.{Shows, Yields};
ghost use Rattle.theory_definitions.specs.Instance.{same_place, same_step, after_step, to_member, to_item, to_name};
ghost use Rattle.std.specs.Cmp.{partial_equiv_from_equiv};
ghost use Rattle.schema_reports.specs.SamePlaces.{places_equiv};
ghost use Rattle.schema_reports.specs.PlaceInputs.{place_input, same_input, step_input};
ghost use Rattle.theory_definitions.specs.Pointer.{is_shown, pointer_to, shown_place, step_text};
ghost use Rattle.schema_reports.specs.InstanceTexts.{subject_has_float};
ghost use Rattle.theory_definitions.specs.Meaning.{subject_text};
ghost use Rattle.schema_reports.specs.Owned.{value_of};
ghost use Rattle.json.specs.Print.{quoted};
ghost use Rattle.serde_json.specs.Find.{get};
ghost use Rattle.serde_json.specs.View.{view};
ghost use Rattle.schema_reports.specs.InstanceViews.{subject_of, step_of};

mod at;

use crate::location::{Location, LocationSegment, OutOfMemory};
use serde_json::Value;
use std::alloc::{AllocError, Global};
use std::hash::{Hash, Hasher};
use std::marker::Model;

/// What is validated: a value, or the name of a member.
///
/// A name is validated as a string.
#[derive(Clone, Copy)]
pub enum Instance<'i> {
    Value(&'i Value),
    Name(&'i str),
}

/// A step down from a place: to a member, an item, or a member's name.
///
/// Names are borrowed from the instance.
#[derive(Clone, Copy)]
pub enum InstanceStep<'i> {
    Member(&'i str),
    Item(usize),
    NameOf(&'i str),
}

// The name and the value of a member, both as the object holds them.
fn named_member<'i>(value: &'i Value, name: &str) -> Option<(&'i str, &'i Value)>
    ensures value { option_map (λ r. view r.1.now) result ≡ get name.now (view value.now) }
    ensures name { IfSome result (λ r. r.0.now ≡ name.now) }
{
    match value.as_object() {
        Some(map) => match map.get_key_value(name) {
            Some((key, inner)) => Some((key.as_str(), inner)),
            None => None,
        },
        None => None,
    }
}

impl<'i> Instance<'i> {
    /// Returns the member with this name, and the step to it.
    ///
    /// The step borrows the object's own copy of the name. Returns `None` if the instance is not an
    /// object or has no such member.
    pub fn member(self, name: &str) -> Option<(Instance<'i>, InstanceStep<'i>)>
        ensures member { option_map (λ r. subject_of r.0) result ≡ after_step (to_member name.now) (subject_of self.entry) }
        ensures step { IfSome result (λ r. step_of r.1 ≡ to_member name.now) }
    {
        match self {
            Instance::Value(value) => match named_member(value, name) {
                Some((key, inner)) => Some((Instance::Value(inner), InstanceStep::Member(key))),
                None => None,
            },
            Instance::Name(_) => None,
        }
    }

    /// Returns the item at this index, and the step to it.
    ///
    /// Returns `None` if the instance is not an array or is too short.
    pub fn item(self, index: usize) -> Option<(Instance<'i>, InstanceStep<'i>)>
        ensures item { option_map (λ r. subject_of r.0) result ≡ after_step (to_item index) (subject_of self.entry) }
        ensures step { IfSome result (λ r. step_of r.1 ≡ to_item index) }
    {
        match self {
            Instance::Value(value) => match value.get(index) {
                Some(inner) => Some((Instance::Value(inner), InstanceStep::Item(index))),
                None => None,
            },
            Instance::Name(_) => None,
        }
    }

    /// Returns the name of a member as an instance, and the step to it.
    ///
    /// Both borrow from the object. Returns `None` if the instance is not an object or has no such
    /// member.
    pub fn name_of(self, name: &str) -> Option<(Instance<'i>, InstanceStep<'i>)>
        ensures name { option_map (λ r. subject_of r.0) result ≡ after_step (to_name name.now) (subject_of self.entry) }
        ensures step { IfSome result (λ r. step_of r.1 ≡ to_name name.now) }
    {
        match self {
            Instance::Value(value) => match named_member(value, name) {
                Some((key, _)) => Some((Instance::Name(key), InstanceStep::NameOf(key))),
                None => None,
            },
            Instance::Name(_) => None,
        }
    }

    /// Returns the instance as compact JSON. A name is quoted.
    ///
    /// The contract does not cover the digits of floats.
    pub fn text(self, alloc: Global) -> Result<String, OutOfMemory>
        ensures text { IfOk result (λ s. subject_has_float (subject_of self.entry) ≡ false
            → string_bytes s ≡ subject_text (subject_of self.entry)) }
    {
        match self {
            Instance::Value(value) => value.to_string(alloc),
            Instance::Name(name) => quoted_text(alloc, name),
        }
    }

    /// Returns the instance as an owned value. A name becomes a string.
    pub fn to_value(self, alloc: Global) -> Result<Value, OutOfMemory>
        ensures value { Shows view result (value_of (subject_of self.entry)) }
    {
        match self {
            Instance::Value(value) => value.clone(),
            Instance::Name(name) => Ok(Value::String(String::from_str(alloc, name)?)),
        }
    }
}

fn quoted_text(alloc: Global, name: &str) -> Result<String, OutOfMemory>
    ensures text { Shows string_bytes result (quoted name.now) }
{
    let value = Value::String(String::from_str(alloc, name)?);
    value.to_string(alloc)
}

/// A place in an instance: the steps from the root down.
///
/// Contracts see the list of steps.
#[derive(Drop)]
pub struct Place<'i> {
    steps: Vec<InstanceStep<'i>>,
}

impl<'i> Model for Place<'i> {
    ghost use Rattle.std.specs.Prelude.{List, map};
    ghost use Rattle.theory_definitions.specs.Instance.{Step};
    ghost use Rattle.schema_reports.specs.InstanceTexts.{subject_has_float};
    ghost use Rattle.theory_definitions.specs.Meaning.{subject_text};
    ghost use Rattle.schema_reports.specs.Owned.{value_of};
    ghost use Rattle.json.specs.Print.{quoted};
    ghost use Rattle.serde_json.specs.Find.{get};
    ghost use Rattle.serde_json.specs.View.{view};
    ghost use Rattle.schema_reports.specs.InstanceViews.{step_of};

    ghost Value = { List Step };

    ghost view = { λ p. map step_of p.steps.items };
}

/// Returns whether both steps have the same kind, and the same name or index.
pub fn same_step(a: InstanceStep<'_>, b: InstanceStep<'_>) -> bool
    ensures same { result ≡ same_step (step_of a.entry) (step_of b.entry) }
{
    match (a, b) {
        (InstanceStep::Member(x), InstanceStep::Member(y)) => x == y,
        (InstanceStep::Item(x), InstanceStep::Item(y)) => x == y,
        (InstanceStep::NameOf(x), InstanceStep::NameOf(y)) => x == y,
        _ => false,
    }
}

fn same_steps(a: &[InstanceStep<'_>], b: &[InstanceStep<'_>]) -> bool
    ensures same { result ≡ same_place (map step_of a.now) (map step_of b.now) }
{
    if a.len() != b.len() {
        return false;
    }
    for (i, step) in a.iter().enumerate() {
        if !same_step(*step, b[i]) {
            return false;
        }
    }
    true
}

/// Appends one step to a pointer. A step to a name adds nothing.
pub fn push_step(pointer: &mut Location, step: InstanceStep<'_>) -> Result<(), OutOfMemory>
    ensures pushed { OnOk result (pointer.new ≡ pointer.old ++ step_text (step_of step.entry)) }
{
    match step {
        InstanceStep::Member(name) => pointer.push(LocationSegment::Property(name)),
        InstanceStep::Item(index) => pointer.push(LocationSegment::Index(index)),
        InstanceStep::NameOf(_) => Ok(()),
    }
}

// Returns whether a pointer shows the step. It does not show a step to a name.
fn is_shown(step: InstanceStep<'_>) -> bool
    ensures shown { result ≡ is_shown (step_of step.entry) }
{
    match step {
        InstanceStep::Member(_) => true,
        InstanceStep::Item(_) => true,
        InstanceStep::NameOf(_) => false,
    }
}

impl<'i> Place<'i> {
    /// Returns the place of the root, which has no steps. Allocates nothing.
    pub fn root(alloc: Global) -> Place<'i>
        ensures root { result ≡ [] }
    {
        Place {
            steps: Vec::new(alloc),
        }
    }

    /// Returns the number of steps from the root to the place.
    pub fn len(&self) -> usize
        ensures count { result ≡ length self.now }
    {
        self.steps.len()
    }

    /// Returns the steps from the root to the place. Allocates nothing.
    pub fn as_steps(&self) -> &[InstanceStep<'i>]
        ensures steps { map step_of result.now ≡ self.now }
    {
        self.steps.as_slice()
    }

    /// Returns the place one step below this one.
    pub fn below(&self, step: InstanceStep<'i>) -> Result<Place<'i>, OutOfMemory>
        ensures below { Yields result (self.now ++ step_of step.entry ∷ []) }
    {
        let mut place = self.with_room(1)?;
        place.push(step)?;
        Ok(place)
    }

    /// Returns a copy of the place, with capacity for `more` further steps.
    pub fn with_room(&self, more: usize) -> Result<Place<'i>, OutOfMemory>
        ensures same { Yields result self.now }
    {
        let count = self.steps.len().saturating_add(more);
        let mut steps = Vec::with_capacity(*self.steps.allocator(), count)?;
        steps.extend_from_slice(self.steps.as_slice())?;
        Ok(Place { steps })
    }

    /// Goes one step further down. On `Err` the place is unchanged.
    pub fn push(&mut self, step: InstanceStep<'i>) -> Result<(), OutOfMemory>
        ensures pushed { OnOk result (self.new ≡ self.old ++ step_of step.entry ∷ []) }
        ensures unchanged { OnErr result (self.new ≡ self.old) }
    {
        self.steps.push(step)?;
        Ok(())
    }

    /// Returns the JSON Pointer of the place.
    ///
    /// The place of a name has the pointer of its object.
    pub fn pointer(&self, alloc: Global) -> Result<Location, OutOfMemory>
        ensures pointer { Yields result (pointer_to self.now) }
    {
        let mut location = Location::new(alloc);
        self.push_pointer(&mut location)?;
        Ok(location)
    }

    /// Appends the JSON Pointer of the place to a pointer.
    pub fn push_pointer(&self, pointer: &mut Location) -> Result<(), OutOfMemory>
        ensures pushed { OnOk result (pointer.new ≡ pointer.old ++ pointer_to self.now) }
    {
        for step in self.steps.iter() {
            push_step(pointer, *step)?;
        }
        Ok(())
    }
}

impl<'i> Place<'i> {
    /// Returns the place that the pointer of this one leads to.
    ///
    /// For the name of a member this is the place of the object.
    pub fn shown(self) -> Place<'i>
        ensures shown { result ≡ shown_place self.entry }
    {
        let Place { steps } = self;
        let mut steps = steps;
        steps.retain(|step| is_shown(*step));
        Place { steps }
    }
}

impl<'i> PartialEq for Place<'i> {
    ghost eq = { same_place };

    ghost laws = { partial_equiv_from_equiv places_equiv };

    /// Returns whether both places consist of the same steps.
    fn eq(&self, other: &Place<'i>) -> bool {
        same_steps(self.steps.as_slice(), other.steps.as_slice())
    }
}

impl<'i> Eq for Place<'i> {
    ghost laws = { places_equiv };
}

// Feeds the number of the step's kind, and then its name or index.
fn hash_step<H: Hasher>(step: InstanceStep<'_>, state: &mut H)
    ensures fed { state.new ≡ fold H.write state.old (step_input (step_of step.entry)) }
{
    match step {
        InstanceStep::Member(name) => {
            state.write_u8(0);
            name.hash(state);
        }
        InstanceStep::Item(index) => {
            state.write_u8(1);
            index.hash(state);
        }
        InstanceStep::NameOf(name) => {
            state.write_u8(2);
            name.hash(state);
        }
    }
}

impl<'i> Hash for Place<'i> {
    ghost hash_input = { place_input };

    ghost respects_eq = { same_input };

    /// Feeds each step in turn.
    fn hash<H: Hasher>(&self, state: &mut H) {
        for step in self.steps.iter() {
            hash_step(*step, state);
        }
    }
}

impl<'i> Clone for Place<'i> {
    ghost is_clone = { λ p copy. copy ≡ p };

    /// Returns a copy of the place.
    fn clone(&self) -> Result<Place<'i>, AllocError> {
        let steps = Vec::from_slice(*self.steps.allocator(), self.steps.as_slice())?;
        Ok(Place { steps })
    }
}
