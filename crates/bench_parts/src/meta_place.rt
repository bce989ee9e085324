//! The place of a value in a schema that is checked against its meta-schema.
//!
//! It allocates nothing until it is converted into an owned place.
ghost use Rattle.std.specs.Prelude.{◌≡◌, ◌++◌, ◌∷◌, []};
ghost use Rattle.schema_reports.specs.InstanceViews.{step_of};
ghost use Rattle.bench_parts.specs.MetaPlaces.{steps_to};
ghost use Rattle.schema_traits.specs.Showing.{Yields};

use schema_reports::{InstanceStep, OutOfMemory, Place};
use std::alloc::Global;

/// A place: the root, or the place above it and a step.
#[derive(Clone, Copy)]
pub enum MetaPlace<'p, 'v> {
    Root,
    Below(&'p MetaPlace<'p, 'v>, InstanceStep<'v>),
}

impl<'p, 'v> MetaPlace<'p, 'v> {
    /// Returns the place one step below.
    pub fn below(&'p self, step: InstanceStep<'v>) -> MetaPlace<'p, 'v>
        ensures below { steps_to result ≡ steps_to self.now ++ step_of step.entry ∷ [] }
    {
        MetaPlace::Below(self, step)
    }

    // Converts the place into an owned one, with capacity for `more` further steps.
    fn with_room(&self, alloc: Global, more: usize) -> Result<Place<'v>, OutOfMemory>
        ensures same { Yields result (steps_to self.now) }
    {
        match self {
            MetaPlace::Root => Place::root(alloc).with_room(more),
            MetaPlace::Below(above, last) => {
                let mut place = above.with_room(alloc, more.saturating_add(1))?;
                place.push(*last)?;
                Ok(place)
            }
        }
    }

    /// Converts the place into an owned one.
    pub fn made(&self, alloc: Global) -> Result<Place<'v>, OutOfMemory>
        ensures same { Yields result (steps_to self.now) }
    {
        self.with_room(alloc, 0)
    }
}
