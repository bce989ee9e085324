//! Makers that refuse the value of a keyword.
ghost use Rattle.std.specs.Prelude.{◌∷◌, [], IfOk, option_map, string_bytes, true};
ghost use Rattle.theory_definitions.specs.Making.{refused, then_end};
ghost use Rattle.serde_json.specs.View.{view};
ghost use Rattle.theory_definitions.specs.Instance.{to_member};
ghost use Rattle.theory_definitions.specs.Pointer.{pointer_to};
ghost use Rattle.schema_reports.specs.ReportViews.{owned_error_of};
ghost use Rattle.keyword_makers.specs.Making.{makes_if, malformed, malformed_text, refused_error};
ghost use Rattle.keyword_makers.specs.MakerViews.{Begins};
ghost use Rattle.schema_traits.specs.Showing.{Shows, Yields};

use crate::maker::{Ending, PathsMaker, ends};
use schema_reports::{Location, LocationSegment, OutOfMemory, OwnedError};
use schema_traits::Validate;
use serde_json::Value;
use std::alloc::Global;

#[tactic(auto, using(crate::proofs::Pointers::pointer_one))]
fn keyword_pointer(alloc: Global, name: &str) -> Result<Location, OutOfMemory>
    ensures pointer { Yields result (pointer_to (to_member name.now ∷ [])) }
{
    let root = Location::new(alloc);
    let pointer = root.join(LocationSegment::Property(name));
    drop(root);
    pointer
}

fn malformed_text(alloc: Global, name: &str) -> Result<String, OutOfMemory>
    ensures text { Shows string_bytes result (malformed_text name.now) }
{
    let mut text = String::from_str(alloc, "\"")?;
    text.push_str(name)?;
    text.push_str("\" has a value of another shape")?;
    Ok(text)
}

/// The error shows the value, and its location is the keyword's.
fn refused_error(
    alloc: Global,
    name: &str,
    value: &Value,
    text: String,
) -> Result<OwnedError, OutOfMemory>
    ensures error { Shows owned_error_of result (refused_error name.now (view value.now) (string_bytes text)) }
{
    Ok(OwnedError {
        instance: value.clone()?,
        instance_path: Location::new(alloc),
        schema_path: keyword_pointer(alloc, name)?,
        evaluation_path: keyword_pointer(alloc, name)?,
        absolute_keyword_location: None,
        keyword: String::from_str(alloc, name)?,
        text,
    })
}

/// Returns a maker that refuses the value.
pub fn malformed<K: Validate>(
    alloc: Global,
    name: &str,
    value: &Value,
) -> Result<PathsMaker<K>, OutOfMemory>
    ensures maker { IfOk result (Begins K.shape (malformed name.now (view value.now))) }
{
    let text = malformed_text(alloc, name)?;
    let error = refused_error(alloc, name, value, text)?;
    Ok(ends(alloc, Ending::Refused(error)))
}

/// Returns a maker that refuses the value, with a text of its own.
pub fn refused<K: Validate>(
    alloc: Global,
    name: &str,
    value: &Value,
    text: String,
) -> Result<PathsMaker<K>, OutOfMemory>
    ensures maker { IfOk result (Begins K.shape (then_end (refused true (refused_error name.now (view value.now) (string_bytes text))))) }
{
    let error = refused_error(alloc, name, value, text)?;
    Ok(ends(alloc, Ending::Refused(error)))
}

/// Returns a maker that makes a keyword, or refuses the value if there is none.
pub fn makes_if<K: Validate>(
    alloc: Global,
    name: &str,
    value: &Value,
    keyword: Option<K>,
) -> Result<PathsMaker<K>, OutOfMemory>
    ensures maker { IfOk result (Begins K.shape (makes_if name.now (view value.now) (option_map K.shape keyword))) }
{
    match keyword {
        Some(keyword) => Ok(ends(alloc, Ending::Keyword(keyword))),
        None => malformed(alloc, name, value),
    }
}
