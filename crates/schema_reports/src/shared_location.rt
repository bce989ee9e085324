//! JSON Pointers that several owners share.
ghost use Rattle.std.specs.Prelude.{◌≡◌, [], ◌∷◌, true};
ghost use Rattle.schema_reports.specs.Showing.{Yields};
ghost use Rattle.json.specs.Print.{escape, escape_byte};

use crate::location::{Location, OutOfMemory};
use std::alloc::{AllocError, Global};
use std::marker::Model;
use std::rc::Rc;

// Returns whether a byte needs no escape between quotes: no quote, backslash or control character.
#[tactic(auto, using(crate::proofs::PlainBytes::plain_byte))]
fn is_plain_byte(byte: u8) -> bool
    ensures plain { result ≡ true → escape_byte byte ≡ byte ∷ [] }
{
    byte >= 0x20 && byte != b'"' && byte != b'\\'
}

/// Returns whether a text needs no escapes in a JSON string (RFC 8259, 7).
pub fn is_plain(text: &[u8]) -> bool
    ensures plain { result ≡ true → escape text.now ≡ text.now }
{
    // (the loop has no early exit, so that it tests many bytes in one step)
    let mut plain = true;
    for byte in text {
        plain &= is_plain_byte(*byte);
    }
    plain
}

// A pointer, and whether its text needs no escapes between quotes. This is determined only once.
#[derive(Drop)]
struct MarkedLocation {
    location: Location,
    plain: bool,
}

impl Model for MarkedLocation {
    ghost use Rattle.std.specs.Prelude.{◌≡◌, List, ℕ, true};
    ghost use Rattle.json.specs.Print.{escape};

    ghost Value = { List ℕ };

    ghost view = { λ m. m.location };

    ghost invariant = { λ m. m.plain ≡ true → escape m.location ≡ m.location };
}

impl MarkedLocation {
    fn new(location: Location) -> MarkedLocation
        ensures same { result ≡ location }
    {
        let plain = is_plain(location.as_str().as_bytes());
        MarkedLocation { location, plain }
    }

    fn as_str(&self) -> &str
        ensures text { result.now ≡ self.now }
    {
        self.location.as_str()
    }

    fn is_plain(&self) -> bool
        ensures plain { result ≡ true → escape self.now ≡ self.now }
    {
        self.plain
    }
}

/// A JSON Pointer that several owners share. Contracts see its bytes.
///
/// A clone needs no memory.
#[derive(Drop)]
pub struct SharedLocation {
    shared: Rc<MarkedLocation>,
}

impl Model for SharedLocation {
    ghost use Rattle.std.specs.Prelude.{List, ℕ};

    ghost Value = { List ℕ };

    ghost view = { λ l. l.shared.value };
}

impl SharedLocation {
    /// Turns a pointer into a shared one.
    pub fn new(alloc: Global, location: Location) -> Result<SharedLocation, OutOfMemory>
        ensures same { Yields result location }
    {
        Ok(SharedLocation {
            shared: Rc::new(alloc, MarkedLocation::new(location))?,
        })
    }

    /// Returns the pointer of the root, which is empty.
    pub fn root(alloc: Global) -> Result<SharedLocation, OutOfMemory>
        ensures empty { Yields result [] }
    {
        SharedLocation::new(alloc, Location::new(alloc))
    }

    /// Returns the pointer as a string slice.
    pub fn as_str(&self) -> &str
        ensures text { result.now ≡ self.now }
    {
        self.shared.as_ref().as_str()
    }

    /// Returns `true` only if the pointer needs no escapes in a JSON string.
    ///
    /// See RFC 8259, 7.
    pub fn is_plain(&self) -> bool
        ensures plain { result ≡ true → escape self.now ≡ self.now }
    {
        self.shared.as_ref().is_plain()
    }
}

impl Clone for SharedLocation {
    ghost is_clone = { λ l copy. copy ≡ l };

    /// Returns another owner of the same pointer. Needs no memory.
    fn clone(&self) -> Result<SharedLocation, AllocError> {
        Ok(SharedLocation {
            shared: self.shared.clone()?,
        })
    }
}
