//! `contains`, with `minContains` and `maxContains` beside it.
//!
//! If `minContains` is above `maxContains`, the number of fitting items can be too small and too
//! great at once. The error then says that it is too great: a run stops counting when it exceeds
//! `maxContains`, so it does not know whether the list reaches `minContains`.
ghost use Rattle.std.specs.Prelude.{string_bytes};
ghost use Rattle.standard_applicators.specs.Containing.{fewer_than, how_many, more_than};
ghost use Rattle.schema_traits.specs.Showing.{Shows};

use keyword_authoring::{Asks, Plan, PlannedKeyword, is_list};
use schema_reports::{Instance, OutOfMemory};
use std::alloc::Global;

/// `contains`, with the least and the greatest number of items that may fit.
#[derive(Clone, Copy)]
pub struct Contains {
    pub least: usize,
    pub most: Option<usize>,
}

/// Returns the beginning of the error's text if more items fit than this.
fn more_than(alloc: Global, most: usize) -> Result<String, OutOfMemory>
    ensures more { Shows string_bytes result (more_than most) }
{
    let mut text = String::new(alloc);
    write!(text, "More than {most} of ")?;
    Ok(text)
}

/// Returns the beginning of the error's text if fewer items fit than this.
fn fewer_than(alloc: Global, least: usize) -> Result<String, OutOfMemory>
    ensures fewer { Shows string_bytes result (fewer_than least) }
{
    if least == 1 {
        return String::from_str(alloc, "None of ");
    }
    let mut text = String::new(alloc);
    write!(text, "Fewer than {least} of ")?;
    Ok(text)
}

impl Contains {
    /// Returns the beginning of the error's text if this number of items fit.
    fn how_many(self, alloc: Global, accepted: usize) -> Result<String, OutOfMemory>
        ensures how_many { Shows string_bytes result (how_many self.least self.most accepted) }
    {
        match self.most {
            None => fewer_than(alloc, self.least),
            Some(most) => {
                if most < accepted {
                    more_than(alloc, most)
                } else {
                    fewer_than(alloc, self.least)
                }
            }
        }
    }
}

impl PlannedKeyword for Contains {
    ghost use Rattle.std.specs.Prelude.{true};
    ghost use Rattle.standard_applicators.specs.Containing.{called, error_text, grows, planned, says_monotone};

    type Shape = Contains;

    ghost shape = { λ k. k };

    ghost shows_no_fraction = { λ k. true };

    ghost planned = { planned };

    ghost called = { called };

    ghost error_text = { error_text };

    ghost says_monotone = { says_monotone };

    fn plan(&self, instance: Instance<'_>) -> Plan {
        if !is_list(instance) {
            return Plan::Holds(true);
        }
        match self.most {
            None => Plan::AtLeast(Asks::Items, self.least),
            Some(most) => Plan::Within(Asks::Items, self.least, most),
        }
    }

    fn name(&self) -> &str {
        "contains"
    }

    fn text(
        &self,
        alloc: Global,
        instance: Instance<'_>,
        accepted: usize,
    ) -> Result<String, OutOfMemory> {
        let mut text = self.how_many(alloc, accepted)?;
        let shown = instance.text(alloc)?;
        text.push_str(shown.as_str())?;
        text.push_str(" are valid under the given schema")?;
        Ok(text)
    }

    fn monotone(&self) -> bool {
        self.most.is_none()
    }

    ghost grows = { grows };
}
