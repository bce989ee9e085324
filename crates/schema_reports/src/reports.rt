//! Errors: the places where an instance violates its schema.
ghost use Rattle.std.specs.Prelude.{◌≡◌, List, Bool, true, false, IfOk, IfSome, length, Some, string_bytes};
ghost use Rattle.schema_reports.specs.Showing.{Shows, Yields};
ghost use Rattle.std.specs.Iterator.{UpTo, YieldsFirst, at_most, item_count};
ghost use Rattle.std.specs.Iterator.SizeHint.{IsWithinCount};
ghost use Rattle.theory_definitions.specs.Pointer.{pointer_to};
ghost use Rattle.theory_definitions.specs.Meaning.{false_error, false_text};
ghost use Rattle.schema_reports.specs.Owned.{owned, prefixed};
ghost use Rattle.schema_reports.specs.InstanceTexts.{subject_has_float};
ghost use Rattle.schema_reports.specs.InstanceViews.{subject_of};
ghost use Rattle.schema_reports.specs.ReportViews.{error_of, owned_error_of, where_of};

use crate::instance::{Instance, Place};
use crate::location::{Location, OutOfMemory};
use std::alloc::Global;
use std::fmt;
use std::marker::Model;
use std::vec::IntoIter;

/// The error of a keyword that rejects an instance.
///
/// The instance is borrowed, and `place` is its place in the whole instance. `schema_path` points
/// at the keyword in its schema, and `evaluation_path` is the path that led to it, including
/// references. `absolute_keyword_location` is the keyword's URI, or `None` if its schema resource
/// has no identifier.
#[derive(Drop)]
pub struct ValidationError<'i> {
    pub instance: Instance<'i>,
    pub place: Place<'i>,
    pub schema_path: Location,
    pub evaluation_path: Location,
    pub absolute_keyword_location: Option<String>,
    pub keyword: String,
    pub text: String,
}

/// An error that owns its instance. Its paths are JSON Pointers.
#[derive(Drop)]
pub struct OwnedError {
    pub instance: serde_json::Value,
    pub instance_path: Location,
    pub schema_path: Location,
    pub evaluation_path: Location,
    pub absolute_keyword_location: Option<String>,
    pub keyword: String,
    pub text: String,
}

impl fmt::Display for ValidationError<'_> {
    ghost output = { λ e. Some (string_bytes e.text) };

    fn fmt<W: fmt::Write>(&self, f: &mut fmt::Formatter<W>) -> fmt::Result {
        write!(f, "{}", self.text)
    }
}

impl fmt::Display for OwnedError {
    ghost output = { λ e. Some (string_bytes e.text) };

    fn fmt<W: fmt::Write>(&self, f: &mut fmt::Formatter<W>) -> fmt::Result {
        write!(f, "{}", self.text)
    }
}

// The error text of the schema `false`, which shows the instance. The digits of floats are not
// covered.
fn false_text(alloc: Global, instance: Instance<'_>) -> Result<String, OutOfMemory>
    ensures text { IfOk result (λ t. subject_has_float (subject_of instance.entry) ≡ false
        → string_bytes t ≡ false_text true (subject_of instance.entry)) }
{
    let shown = instance.text(alloc)?;
    let mut text = String::from_str(alloc, "False schema does not allow ")?;
    text.push_str(shown.as_str())?;
    Ok(text)
}

impl<'i> ValidationError<'i> {
    /// Returns the error of the schema `false`, which rejects every instance.
    ///
    /// Its text shows the instance. The contract does not cover the digits of floats.
    pub fn false_schema(
        alloc: Global,
        instance: Instance<'i>,
        place: Place<'i>,
        schema_path: Location,
        evaluation_path: Location,
        absolute: Option<String>,
    ) -> Result<ValidationError<'i>, OutOfMemory>
        ensures error { IfOk result (λ e. (texts : Bool) → (texts ≡ true → subject_has_float (subject_of instance.entry) ≡ false)
            → error_of texts e
            ≡ false_error texts (where_of place.entry schema_path evaluation_path absolute) (subject_of instance.entry)) }
        ensures borrows { IfOk result (λ e. e.instance ≡ instance.entry) }
    {
        let text = false_text(alloc, instance)?;
        let keyword = String::from_str(alloc, "falseSchema")?;
        Ok(ValidationError {
            instance,
            place,
            schema_path,
            evaluation_path,
            absolute_keyword_location: absolute,
            keyword,
            text,
        })
    }

    /// Returns the JSON Pointer of the instance.
    pub fn instance_path(&self, alloc: Global) -> Result<Location, OutOfMemory>
        ensures pointer { Yields result (pointer_to self.now.place) }
    {
        self.place.pointer(alloc)
    }

    /// Returns the name of the keyword that reported the error.
    ///
    /// It is `falseSchema` for the schema `false`.
    pub fn keyword(&self) -> &str
        ensures name { result.now ≡ string_bytes self.now.keyword }
    {
        self.keyword.as_str()
    }

    /// Returns the error with an owned copy of its instance.
    ///
    /// A name becomes a string.
    pub fn to_owned(&self, alloc: Global) -> Result<OwnedError, OutOfMemory>
        ensures owned { Shows owned_error_of result (owned (subject_of self.now.instance) (error_of true self.now)) }
    {
        Ok(OwnedError {
            instance: self.instance.to_value(alloc)?,
            instance_path: self.place.pointer(alloc)?,
            schema_path: self.schema_path.clone()?,
            evaluation_path: self.evaluation_path.clone()?,
            absolute_keyword_location: self.absolute_keyword_location.clone()?,
            keyword: self.keyword.clone()?,
            text: self.text.clone()?,
        })
    }
}

impl OwnedError {
    /// Puts a location before the instance path. Nothing else changes.
    ///
    /// Use it for an error in a part of a larger instance.
    pub fn with_instance_path_prefix(self, location: &Location) -> Result<OwnedError, OutOfMemory>
        ensures prefixed { Shows owned_error_of result (prefixed location.now (owned_error_of self)) }
    {
        let instance_path = location.append(&self.instance_path)?;
        Ok(OwnedError {
            instance_path,
            ..self
        })
    }
}

/// An iterator over errors, in order. Contracts see the errors that are left.
#[derive(Drop)]
pub struct ErrorIterator<'i> {
    errors: IntoIter<ValidationError<'i>>,
}

impl<'i> Model for ErrorIterator<'i> {
    ghost use Rattle.std.specs.Prelude.{◌≡◌, List, length};
    ghost use Rattle.std.specs.Vec.Iter.{into_iter_items, into_iter_len};
    ghost use Rattle.schema_reports.specs.declared.reports.ValidationError.{ValidationError};
    ghost use Rattle.std.specs.Coded.{codes};
    ghost use Rattle.serde_json.specs.contracts.value.Value as e;

    ghost Value = { List ValidationError };

    ghost coded = { Prim.hlevel (codes, e.the_row.coded) };

    ghost view = { λ e. into_iter_items e.errors };

    ghost invariant = { λ e. into_iter_len e.errors ≡ length (into_iter_items e.errors) };
}

impl<'i> ErrorIterator<'i> {
    /// Returns an iterator over these errors, in this order.
    pub fn new(errors: Vec<ValidationError<'i>>) -> ErrorIterator<'i>
        ensures errors { result ≡ errors.entry.items }
    {
        ErrorIterator {
            errors: errors.into_iter(),
        }
    }
}

impl<'i> Iterator for ErrorIterator<'i> {
    type Item = ValidationError<'i>;

    ghost next_gives = { YieldsFirst (λ s. s) };

    ghost remaining = { item_count (λ s. s) };

    fn next(&mut self) -> Option<ValidationError<'i>> {
        self.errors.next()
    }

    /// Returns the number of errors that are left, as both bounds.
    fn size_hint(&self) -> (usize, Option<usize>)
        ensures lower { IsWithinCount result.0 (at_most (length self.now)) }
        ensures upper { IfSome result.1 (UpTo (at_most (length self.now))) }
        ensures exact { result ≡ (length self.now, Some (length self.now)) }
    {
        let left = self.errors.len();
        (left, Some(left))
    }
}
