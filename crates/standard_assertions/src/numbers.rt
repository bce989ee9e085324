//! A number of a schema: a limit, or the value of `multipleOf`.
ghost use Rattle.std.specs.Prelude.{◌≡◌, IfOk, false, string_bytes};
ghost use Rattle.serde_json.specs.Find.{as_number, is_float};
ghost use Rattle.serde_json.specs.View.{number_view, view};
ghost use Rattle.serde_json.specs.Written.{number_text};

use schema_reports::OutOfMemory;
use serde_json::{Number, Value};
use std::alloc::{AllocError, Global};
use std::marker::Model;

/// A number that a keyword stores, such as its limit.
///
/// Contracts see only the number, so that a keyword that stores one is its own shape.
#[derive(Drop)]
pub struct HeldNumber {
    number: Number,
}

impl Model for HeldNumber {
    ghost use Rattle.serde_json.specs.Data.{Num};
    ghost use Rattle.serde_json.specs.View.{number_view as number_of};
    ghost use Rattle.standard_assertions.specs.NumberCoding.{number_code};

    ghost Value = { Num };

    ghost coded = { number_code };

    ghost view = { λ held. number_of held.number };
}

impl HeldNumber {
    /// Returns the number if the value is one.
    pub fn of(value: &Value) -> Option<HeldNumber>
        ensures held { result ≡ as_number (view value.now) }
    {
        match value.as_number() {
            Some(number) => Some(HeldNumber { number: *number }),
            None => None,
        }
    }

    /// Returns the number.
    pub fn as_number(&self) -> &Number
        ensures number { number_view result.now ≡ self.now }
    {
        &self.number
    }

    /// Returns the number as compact JSON.
    ///
    /// The contract does not cover the digits of a fraction.
    ///
    /// # Errors
    ///
    /// Out of memory.
    pub fn text(&self, alloc: Global) -> Result<String, OutOfMemory>
        ensures text { IfOk result (λ s. is_float self.now ≡ false → string_bytes s ≡ number_text self.now) }
    {
        Value::Number(self.number).to_string(alloc)
    }
}

impl Clone for HeldNumber {
    ghost is_clone = { λ held copy. copy ≡ held };

    /// Returns a clone of the number.
    fn clone(&self) -> Result<HeldNumber, AllocError> {
        Ok(HeldNumber {
            number: self.number,
        })
    }
}
