//! The constants of `const` and `enum`.
//!
//! JSON Schema Validation 2020-12, 6.1.2 and 6.1.3, defines these keywords.
ghost use Rattle.std.specs.Prelude.{◌≡◌, ◌≤◌, IfOk, Some, false, string_bytes};
ghost use Rattle.serde_json.specs.Data.{Data, depth, string};
ghost use Rattle.serde_json.specs.Read.{max_depth, read};
ghost use Rattle.serde_json.specs.View.{view};
ghost use Rattle.serde_json.specs.Written.{IsInOrder, compact_text, has_float};
ghost use Rattle.json_values.specs.Equality.{equal};

use crate::OutOfMemory;
use crate::equality::is_equal;
use serde_json::Value;
use std::alloc::{AllocError, Global};
use std::marker::Model;

/// A JSON value that a keyword keeps as its constant.
///
/// Contracts see only the value, so a keyword that holds one is its own abstract value.
#[derive(Drop)]
pub struct HeldValue {
    value: Value,
}

impl Model for HeldValue {
    ghost use Rattle.serde_json.specs.Data.{Data};
    ghost use Rattle.serde_json.specs.View.{view as data_of};
    ghost use Rattle.json_values.specs.Coding.{data_code};

    ghost Value = { Data };

    ghost coded = { data_code };

    ghost view = { λ held. data_of held.value };
}

impl HeldValue {
    /// Keeps a copy of the value.
    ///
    /// # Errors
    ///
    /// Out of memory.
    pub fn of(_alloc: Global, value: &Value) -> Result<HeldValue, OutOfMemory>
        ensures held { IfOk result (λ held. held ≡ view value.now) }
    {
        let value = value.clone()?;
        Ok(HeldValue { value })
    }

    /// Returns the value.
    pub fn as_value(&self) -> &Value
        ensures value { view result.now ≡ self.now }
    {
        &self.value
    }

    /// Returns whether an instance equals the value: 1 equals 1.0.
    pub fn equals(&self, instance: &Value) -> bool
        ensures equal { result ≡ equal self.now (view instance.now) }
    {
        is_equal(&self.value, instance)
    }

    /// Returns whether the value is this text, such as the name of a member.
    pub fn equals_text(&self, text: &str) -> bool
        ensures equal { result ≡ equal self.now (string text.now) }
    {
        self.value.as_str() == Some(text)
    }

    /// Returns the value as compact JSON, with members in the order of their names.
    ///
    /// The contract does not fix the digits of a float, only that reading them yields the float.
    ///
    /// # Errors
    ///
    /// Out of memory.
    pub fn text(&self, alloc: Global) -> Result<String, OutOfMemory>
        ensures text { IfOk result (λ s. has_float self.now ≡ false → string_bytes s ≡ compact_text self.now) }
        ensures order { IfOk result (λ s. IsInOrder (string_bytes s) self.now) }
        ensures reads_back { IfOk result (λ s. depth self.now ≤ max_depth → read (string_bytes s) ≡ Some self.now) }
    {
        self.value.to_string(alloc)
    }
}

impl Clone for HeldValue {
    ghost is_clone = { λ held copy. copy ≡ held };

    fn clone(&self) -> Result<HeldValue, AllocError> {
        let value = self.value.clone()?;
        Ok(HeldValue { value })
    }
}
