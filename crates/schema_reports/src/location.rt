//! JSON Pointers as text (RFC 6901).
//!
//! Clones and comparisons are those of the traits, whose laws say that a clone equals what
//! contracts see. Contracts see the bytes through a model, which hides the capacity.
ghost use Rattle.std.specs.Prelude.{◌≡◌, ℕ, List, [], ◌++◌, bytes_eq, string_bytes, decimal, true, OnOk};
ghost use Rattle.schema_reports.specs.Showing.{Adds, Yields};
ghost use Rattle.std.specs.Cmp.{partial_equiv_from_equiv};
ghost use Rattle.std.specs.Cmp.Lexicographic.{nat_list_eq_equiv};
ghost use Rattle.std.specs.Char.{encode_utf8};
ghost use Rattle.theory_definitions.specs.Pointer.{escaped};
ghost use Rattle.schema_reports.specs.LocationViews.{segment_text, segment_of};

use std::alloc::{AllocError, Global};
use std::marker::Model;

/// A lack of memory.
///
/// A function returns it only if the allocator refused a request.
pub type OutOfMemory = AllocError;

/// One segment of a pointer: the name of a member, or the index of an item.
#[derive(Clone, Copy)]
pub enum LocationSegment<'a> {
    Property(&'a str),
    Index(usize),
}

/// A JSON Pointer. Contracts see its bytes.
#[derive(Drop)]
pub struct Location {
    text: String,
}

impl Model for Location {
    ghost use Rattle.std.specs.Prelude.{List, ℕ, string_bytes};

    ghost Value = { List ℕ };

    ghost view = { λ l. string_bytes l.text };
}

// Appends one character, escaped.
fn push_escaped_char(text: &mut String, c: char) -> Result<(), OutOfMemory>
    ensures escaped { Adds result text.old text.new (escaped (encode_utf8 c)) }
{
    if c == '~' {
        text.push_str("~0")
    } else if c == '/' {
        text.push_str("~1")
    } else {
        text.push(c)
    }
}

// Returns whether a name needs no escapes.
//
// The loop has no early exit, so that it tests many bytes in one step.
fn is_bare(name: &[u8]) -> bool
    ensures bare { result ≡ true → escaped name.now ≡ name.now }
{
    let mut bare = true;
    for byte in name {
        bare &= (*byte != b'~') & (*byte != b'/');
    }
    bare
}

// Appends a name, with `~` as `~0` and `/` as `~1`.
fn push_escaped(text: &mut String, name: &str) -> Result<(), OutOfMemory>
    ensures escaped { Adds result text.old text.new (escaped name.now) }
{
    // (for a single character the test costs more than it saves)
    if name.len() > 1 && is_bare(name.as_bytes()) {
        return text.push_str(name);
    }
    for c in name.chars() {
        push_escaped_char(text, c)?;
    }
    Ok(())
}

// Appends an index in decimal.
fn push_decimal(text: &mut String, index: usize) -> Result<(), OutOfMemory>
    ensures decimal { Adds result text.old text.new (decimal index) }
{
    write!(text, "{index}")
}

// Estimates the length in bytes of a segment with its `/`: of a name without escapes, or of the
// longest index.
fn room_for(segment: LocationSegment<'_>) -> usize {
    match segment {
        LocationSegment::Property(name) => name.len().saturating_add(1),
        LocationSegment::Index(_) => 21,
    }
}

impl Location {
    /// Returns the pointer of the root, which is empty. Allocates nothing.
    pub fn new(alloc: Global) -> Location
        ensures empty { result ≡ [] }
    {
        Location {
            text: String::new(alloc),
        }
    }

    /// Returns the pointer with this text, which must be escaped already.
    ///
    /// The text is taken as it is.
    pub fn from_escaped(alloc: Global, text: &str) -> Result<Location, OutOfMemory>
        ensures same { Yields result text.now }
    {
        Ok(Location {
            text: String::from_str(alloc, text)?,
        })
    }

    /// Returns the pointer of the root, with capacity for this many bytes.
    pub fn with_capacity(alloc: Global, bytes: usize) -> Result<Location, OutOfMemory>
        ensures empty { Yields result [] }
    {
        Ok(Location {
            text: String::with_capacity(alloc, bytes)?,
        })
    }

    /// Returns the pointer as a string slice.
    pub fn as_str(&self) -> &str
        ensures text { result.now ≡ self.now }
    {
        self.text.as_str()
    }

    /// Returns the pointer with one more segment.
    ///
    /// The segment is `/` and the name, with `~` as `~0` and `/` as `~1`, or `/` and the index in
    /// decimal.
    pub fn join(&self, segment: LocationSegment<'_>) -> Result<Location, OutOfMemory>
        ensures joined { Yields result (self.now ++ segment_text (segment_of segment.entry)) }
    {
        let mut location = self.with_room(room_for(segment))?;
        location.push(segment)?;
        Ok(location)
    }

    // Returns a copy with capacity for `more` further bytes.
    fn with_room(&self, more: usize) -> Result<Location, OutOfMemory>
        ensures same { Yields result self.now }
    {
        let bytes = self.text.len().saturating_add(more);
        let mut text = String::with_capacity(*self.text.allocator(), bytes)?;
        text.push_str(self.text.as_str())?;
        Ok(Location { text })
    }

    /// Appends one segment in place, as `join` writes it.
    ///
    /// On `Err` a part of the segment may have been written.
    pub fn push(&mut self, segment: LocationSegment<'_>) -> Result<(), OutOfMemory>
        ensures pushed { OnOk result (self.new ≡ self.old ++ segment_text (segment_of segment.entry)) }
    {
        self.text.push('/')?;
        match segment {
            LocationSegment::Property(name) => push_escaped(&mut self.text, name),
            LocationSegment::Index(index) => push_decimal(&mut self.text, index),
        }
    }

    /// Appends a text in place, which must be escaped already.
    ///
    /// The text is taken as it is.
    pub fn push_escaped(&mut self, text: &str) -> Result<(), OutOfMemory>
        ensures pushed { OnOk result (self.new ≡ self.old ++ text.now) }
    {
        self.text.push_str(text)
    }

    /// Returns the pointer followed by another one.
    pub fn append(&self, rest: &Location) -> Result<Location, OutOfMemory>
        ensures appended { Yields result (self.now ++ rest.now) }
    {
        let mut whole = self.with_room(rest.text.len())?;
        whole.push_escaped(rest.text.as_str())?;
        Ok(whole)
    }
}

impl PartialEq for Location {
    ghost eq = { bytes_eq };

    ghost laws = { partial_equiv_from_equiv nat_list_eq_equiv };

    /// Returns whether both pointers have the same text.
    fn eq(&self, other: &Location) -> bool {
        self.text == other.text
    }
}

impl Eq for Location {
    ghost laws = { nat_list_eq_equiv };
}

impl Clone for Location {
    ghost is_clone = { λ l copy. copy ≡ l };

    /// Returns a copy of the pointer.
    fn clone(&self) -> Result<Location, AllocError> {
        Ok(Location {
            text: self.text.clone()?,
        })
    }
}
