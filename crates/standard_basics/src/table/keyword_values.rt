//! The values of keywords.
ghost use Rattle.std.specs.Prelude.{◌≡◌, IfOk, map, option_map, string_bytes};
ghost use Rattle.serde_json.specs.View.{items_view, view};
ghost use Rattle.standard_basics.specs.Makers.{count_shape, pattern_shape, required_shape, texts_of, type_shape};
ghost use Rattle.standard_basics.specs.Shapes.{shape_of};
ghost use Rattle.schema_traits.specs.Showing.{Shows};

use crate::counts::CountKind;
use crate::keyword::BasicKeyword;
use crate::type_names::{type_named, types_of};
use keyword_makers::push_text;
use schema_reports::OutOfMemory;
use serde_json::Value;
use std::alloc::Global;

/// Returns the keyword `type` with this value, if there is one.
pub fn type_keyword(alloc: Global, value: &Value) -> Result<Option<BasicKeyword>, OutOfMemory>
    ensures shaped { Shows (option_map shape_of) result (type_shape (view value.now)) }
{
    match value {
        Value::String(name) => match type_named(name.as_str()) {
            Some(name) => Ok(Some(BasicKeyword::Type(name))),
            None => Ok(None),
        },
        Value::Array(values) => match types_of(alloc, values.as_slice())? {
            Some(names) => Ok(Some(BasicKeyword::Types(names))),
            None => Ok(None),
        },
        _ => Ok(None),
    }
}

/// Returns the texts of a list of values, if each value is a text.
pub fn texts_of(alloc: Global, values: &[Value]) -> Result<Option<Vec<String>>, OutOfMemory>
    ensures texts { IfOk result (λ texts. option_map (λ v. map string_bytes v.items) texts ≡ texts_of (items_view values.now)) }
{
    let mut texts = Vec::new(alloc);
    for value in values {
        match value {
            Value::String(text) => push_text(alloc, text.as_str(), &mut texts)?,
            _ => return Ok(None),
        }
    }
    Ok(Some(texts))
}

/// Returns the keyword `required` with this value, if there is one.
pub fn required_keyword(alloc: Global, value: &Value) -> Result<Option<BasicKeyword>, OutOfMemory>
    ensures shaped { Shows (option_map shape_of) result (required_shape (view value.now)) }
{
    match value {
        Value::Array(values) => match texts_of(alloc, values.as_slice())? {
            Some(names) => Ok(Some(BasicKeyword::Required(names))),
            None => Ok(None),
        },
        _ => Ok(None),
    }
}

/// Returns the keyword `pattern` with this value, if there is one.
pub fn pattern_keyword(alloc: Global, value: &Value) -> Result<Option<BasicKeyword>, OutOfMemory>
    ensures shaped { Shows (option_map shape_of) result (pattern_shape (view value.now)) }
{
    match value {
        Value::String(text) => {
            let pattern = String::from_str(alloc, text.as_str())?;
            Ok(Some(BasicKeyword::Pattern(pattern)))
        }
        _ => Ok(None),
    }
}

/// Returns a keyword that counts, with this value, if there is one.
pub fn count_keyword(kind: CountKind, value: &Value) -> Option<BasicKeyword>
    ensures shaped { option_map shape_of result ≡ count_shape kind (view value.now) }
{
    match value.as_u64() {
        Some(limit) => Some(BasicKeyword::Count(kind, limit)),
        None => None,
    }
}
