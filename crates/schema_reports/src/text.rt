//! Strings that contracts see as their bytes.
ghost use Rattle.std.specs.Prelude.{◌≡◌, bytes_eq, string_bytes};
ghost use Rattle.schema_reports.specs.Showing.{Yields};

use crate::location::OutOfMemory;
use std::alloc::{AllocError, Global};
use std::marker::Model;

/// A string that contracts see as its bytes.
#[derive(Drop)]
pub struct Text {
    string: String,
}

impl Model for Text {
    ghost use Rattle.std.specs.Prelude.{List, ℕ, string_bytes};

    ghost Value = { List ℕ };

    ghost view = { λ t. string_bytes t.string };
}

impl Text {
    /// Returns an owned copy of the string slice.
    pub fn new(alloc: Global, text: &str) -> Result<Text, OutOfMemory>
        ensures same { Yields result text.now }
    {
        let string = String::from_str(alloc, text)?;
        Ok(Text { string })
    }

    /// Returns the string slice.
    pub fn as_str(&self) -> &str
        ensures text { result.now ≡ self.now }
    {
        self.string.as_str()
    }

    /// Returns the `String` inside.
    pub fn into_string(self) -> String
        ensures text { string_bytes result ≡ self }
    {
        self.string
    }

    /// Returns whether the string is equal to `text`.
    pub fn is(&self, text: &str) -> bool
        ensures same { result ≡ bytes_eq text.now self.now }
    {
        text == self.string.as_str()
    }
}

impl Clone for Text {
    ghost is_clone = { λ t copy. copy ≡ t };

    /// Returns a copy of the string.
    fn clone(&self) -> Result<Text, AllocError> {
        let string = self.string.clone()?;
        Ok(Text { string })
    }
}
