//! The errors of lookups that are refused.
ghost use Rattle.std.specs.Prelude.{◌++◌, string_bytes};
ghost use Rattle.schema_traits.specs.Showing.{Shows};
ghost use Rattle.standard_subschemas.specs.Refusals.{RefusesWith};

use schema_reports::OutOfMemory;
use schema_traits::LookupError;
use std::alloc::Global;

fn joined(alloc: Global, first: &str, second: &str) -> Result<String, OutOfMemory>
    ensures joined { Shows string_bytes result (first.now ++ second.now) }
{
    let mut text = String::from_str(alloc, first)?;
    text.push_str(second)?;
    Ok(text)
}

/// Makes the error of a refused lookup, from a text and its subject's name.
pub fn refusal(alloc: Global, text: &str, about: &str) -> LookupError
    ensures refused { RefusesWith (text.now ++ about.now) result }
{
    match joined(alloc, text, about) {
        Ok(text) => LookupError::Refused(text),
        Err(_) => LookupError::OutOfMemory,
    }
}
