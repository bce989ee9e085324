//! The place at which a node is evaluated, built only if it is requested.
ghost use Rattle.std.specs.Prelude.{◌≡◌, ◌++◌, ◌∷◌, [], List, Some, OnOk};
ghost use Rattle.schema_traits.specs.Showing.{Yields};
ghost use Rattle.schema_reports.specs.InstanceViews.{step_of};
ghost use Rattle.theory_definitions.specs.Instance as instance;
ghost use Rattle.theory_definitions.specs.Pointer.{pointer_to};
ghost use Rattle.schema_places.specs.Numbers.{number_of};
ghost use Rattle.schema_run_steps.specs.EvaluationPlaces.{CarriesItsNumber, steps_to};

use schema_places::Places;
use schema_reports::{InstanceStep, Location, OutOfMemory, Place, push_step};
use std::alloc::Global;

// The room in bytes of a new pointer that is not empty. Most pointers fit, and computing the exact
// length would take as long as building the pointer.
const ROOM_OF_POINTER: usize = 24;

/// A place in an instance, as the steps that led to it.
///
/// It is a place that the caller supplied, one step below another place, or a place with its number
/// in the instance.
#[derive(Clone, Copy)]
pub enum EvaluationPlace<'p, 'i> {
    Given(&'p Place<'i>),
    Below(&'p EvaluationPlace<'p, 'i>, InstanceStep<'i>),
    Numbered(&'p EvaluationPlace<'p, 'i>, usize),
}

impl<'p, 'i> EvaluationPlace<'p, 'i> {
    /// Returns the place that the caller supplies.
    pub fn given(place: &'p Place<'i>) -> EvaluationPlace<'p, 'i>
        ensures same { steps_to result ≡ place.now }
        ensures carries { (places : List instance.Place) → CarriesItsNumber places result }
    {
        EvaluationPlace::Given(place)
    }

    /// Returns the place one step below.
    pub fn below(&'p self, step: InstanceStep<'i>) -> EvaluationPlace<'p, 'i>
        ensures below { steps_to result ≡ steps_to self.now ++ step_of step.entry ∷ [] }
        ensures carries { (places : List instance.Place) → CarriesItsNumber places self.now → CarriesItsNumber places result }
    {
        EvaluationPlace::Below(self, step)
    }

    /// Returns the same place, with its number.
    pub fn numbered(&'p self, number: usize) -> EvaluationPlace<'p, 'i>
        ensures same { steps_to result ≡ steps_to self.now }
        ensures carries { (places : List instance.Place) → number_of (steps_to self.now) places ≡ Some number
            → CarriesItsNumber places result }
    {
        EvaluationPlace::Numbered(self, number)
    }

    /// Returns the number of the place in an instance, if the place exists.
    ///
    /// The search begins at the last place above that carries its number, or else at the root.
    /// Allocates nothing.
    #[inline(always)]
    pub fn number(&self, places: &Places<'_>) -> Option<usize>
        requires carries { CarriesItsNumber places.now self.now }
        ensures number { result ≡ number_of (steps_to self.now) places.now }
    {
        match self {
            // Many places are one step below one that carries its number. They need no call.
            EvaluationPlace::Below(above, step) => match above {
                EvaluationPlace::Numbered(_, number) => places.child(*number, *step),
                _ => self.walked_number(places),
            },
            EvaluationPlace::Numbered(_, number) => Some(*number),
            EvaluationPlace::Given(_) => self.walked_number(places),
        }
    }

    // Like `number`, by a walk down. Not inlined, so that the fast path does not pay for its stack
    // frame.
    #[inline(never)]
    fn walked_number(&self, places: &Places<'_>) -> Option<usize>
        requires carries { CarriesItsNumber places.now self.now }
        ensures number { result ≡ number_of (steps_to self.now) places.now }
    {
        match self {
            EvaluationPlace::Given(place) => places.find(place.as_steps()),
            // Most places are a few steps below one that carries its number. This saves a call.
            EvaluationPlace::Below(above, step) => match above {
                EvaluationPlace::Numbered(_, number) => places.child(*number, *step),
                _ => match above.walked_number(places) {
                    Some(number) => places.child(number, *step),
                    None => {
                        // Nothing is below a place that does not exist.
                        places.assert_closed();
                        None
                    }
                },
            },
            EvaluationPlace::Numbered(_, number) => Some(*number),
        }
    }

    /// Returns the place as an owned one, with room for this many more steps.
    ///
    /// # Errors
    ///
    /// Out of memory.
    pub fn with_room(&self, more: usize) -> Result<Place<'i>, OutOfMemory>
        ensures same { Yields result (steps_to self.now) }
    {
        match self {
            EvaluationPlace::Given(place) => place.with_room(more),
            EvaluationPlace::Below(above, last) => {
                let mut place = above.with_room(more.saturating_add(1))?;
                place.push(*last)?;
                Ok(place)
            }
            EvaluationPlace::Numbered(same, _) => same.with_room(more),
        }
    }

    fn push_pointer(&self, pointer: &mut Location) -> Result<(), OutOfMemory>
        ensures pushed { OnOk result (pointer.new ≡ pointer.old ++ pointer_to (steps_to self.now)) }
    {
        match self {
            EvaluationPlace::Given(place) => place.push_pointer(pointer),
            EvaluationPlace::Below(above, last) => {
                above.push_pointer(pointer)?;
                push_step(pointer, *last)
            }
            EvaluationPlace::Numbered(same, _) => same.push_pointer(pointer),
        }
    }

    // Returns the room for the place's pointer: none if the pointer is empty. The name of a member
    // has the pointer of its object.
    fn pointer_room(&self) -> usize {
        match self {
            EvaluationPlace::Given(place) if place.len() == 0 => 0,
            EvaluationPlace::Given(_) => ROOM_OF_POINTER,
            EvaluationPlace::Below(above, InstanceStep::NameOf(_)) => above.pointer_room(),
            EvaluationPlace::Below(_, _) => ROOM_OF_POINTER,
            EvaluationPlace::Numbered(same, _) => same.pointer_room(),
        }
    }

    /// Returns the JSON Pointer of the place.
    ///
    /// # Errors
    ///
    /// Out of memory.
    pub fn pointer(&self, alloc: Global) -> Result<Location, OutOfMemory>
        ensures pointer { Yields result (pointer_to (steps_to self.now)) }
    {
        let mut pointer = Location::with_capacity(alloc, self.pointer_room())?;
        self.push_pointer(&mut pointer)?;
        Ok(pointer)
    }

    /// Returns the place as an owned one.
    ///
    /// # Errors
    ///
    /// Out of memory.
    pub fn made(&self) -> Result<Place<'i>, OutOfMemory>
        ensures same { Yields result (steps_to self.now) }
    {
        self.with_room(0)
    }
}
