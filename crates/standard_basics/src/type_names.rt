//! The types that a value may have.
ghost use Rattle.std.specs.Prelude.{◌≡◌, IfOk, option_map};
ghost use Rattle.serde_json.specs.View.{items_view, view};
ghost use Rattle.schema_reports.specs.InstanceViews.{subject_of};
ghost use Rattle.standard_basics.specs.TypeNames.{type_name, fits, type_named, type_of, types_of};

use schema_reports::{Instance, OutOfMemory};
use serde_json::Value;
use std::alloc::Global;

/// A type of values, by its name in schemas.
#[derive(Clone, Copy)]
pub enum TypeName {
    Null,
    Boolean,
    Integer,
    Number,
    Text,
    Array,
    Object,
}

impl TypeName {
    /// Returns the type's name.
    pub fn as_str(self) -> &'static str
        ensures name { result.now ≡ type_name self }
    {
        match self {
            TypeName::Null => "null",
            TypeName::Boolean => "boolean",
            TypeName::Integer => "integer",
            TypeName::Number => "number",
            TypeName::Text => "string",
            TypeName::Array => "array",
            TypeName::Object => "object",
        }
    }

    /// Returns whether an instance has this type; a name counts as a text.
    pub fn fits(self, instance: Instance<'_>) -> bool
        ensures fits { result ≡ fits self (subject_of instance.entry) }
    {
        match instance {
            Instance::Name(_) => matches!(self, TypeName::Text),
            Instance::Value(value) => match self {
                TypeName::Null => value.is_null(),
                TypeName::Boolean => value.is_boolean(),
                TypeName::Integer => value.is_i64() || value.is_u64(),
                TypeName::Number => value.is_number(),
                TypeName::Text => value.is_string(),
                TypeName::Array => value.is_array(),
                TypeName::Object => value.is_object(),
            },
        }
    }
}

/// Returns the type with this name.
pub fn type_named(name: &str) -> Option<TypeName>
    ensures named { result ≡ type_named name.now }
{
    if name == "null" {
        Some(TypeName::Null)
    } else if name == "boolean" {
        Some(TypeName::Boolean)
    } else if name == "integer" {
        Some(TypeName::Integer)
    } else if name == "number" {
        Some(TypeName::Number)
    } else if name == "string" {
        Some(TypeName::Text)
    } else if name == "array" {
        Some(TypeName::Array)
    } else if name == "object" {
        Some(TypeName::Object)
    } else {
        None
    }
}

/// Returns the type that a value names.
pub fn type_of(value: &Value) -> Option<TypeName>
    ensures named { result ≡ type_of (view value.now) }
{
    match value.as_str() {
        Some(name) => type_named(name),
        None => None,
    }
}

/// Returns the types that the values name, if each of them names one.
///
/// # Errors
///
/// Out of memory.
pub fn types_of(alloc: Global, values: &[Value]) -> Result<Option<Vec<TypeName>>, OutOfMemory>
    ensures named { IfOk result (λ names. option_map (λ v. v.items) names ≡ types_of (items_view values.now)) }
{
    let mut names = Vec::new(alloc);
    for value in values {
        match type_of(value) {
            Some(name) => names.push(name)?,
            None => return Ok(None),
        }
    }
    Ok(Some(names))
}
