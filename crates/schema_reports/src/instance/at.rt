//! The instance at a place.
ghost use Rattle.std.specs.Prelude.{◌≡◌, map, option_map};
ghost use Rattle.theory_definitions.specs.Instance.{after_step, subject_from};
ghost use Rattle.schema_reports.specs.InstanceViews.{step_of, subject_of};

use super::{Instance, InstanceStep, Place};

// The instance one step below.
fn after<'i>(instance: Instance<'i>, step: InstanceStep<'_>) -> Option<Instance<'i>>
    ensures after { option_map subject_of result ≡ after_step (step_of step.entry) (subject_of instance.entry) }
{
    let found = match step {
        InstanceStep::Member(name) => instance.member(name),
        InstanceStep::Item(index) => instance.item(index),
        InstanceStep::NameOf(name) => instance.name_of(name),
    };
    match found {
        Some((below, _)) => Some(below),
        None => None,
    }
}

fn at_steps<'i>(instance: Instance<'i>, steps: &[InstanceStep<'_>]) -> Option<Instance<'i>>
    ensures at { option_map subject_of result ≡ subject_from (map step_of steps.now) (subject_of instance.entry) }
{
    let mut current = instance;
    for (i, step) in steps.iter().enumerate() {
        match after(current, *step) {
            Some(below) => current = below,
            None => return None,
        }
    }
    Some(current)
}

impl<'i> Instance<'i> {
    /// Returns the instance at this place, or `None` if there is no such place.
    pub fn at(self, place: &Place<'_>) -> Option<Instance<'i>>
        ensures at { option_map subject_of result ≡ subject_from place.now (subject_of self.entry) }
    {
        at_steps(self, place.steps.as_slice())
    }
}
