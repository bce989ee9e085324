//! Universally unique identifiers. (RFC 4122, section 3)
ghost use Rattle.std.specs.Prelude.{◌≡◌};
ghost use Rattle.text_formats.specs.Uuids as spec;

use crate::characters::fits;

/// Returns whether a text is a universally unique identifier.
///
/// An example is `f81d4fae-7dec-11d0-a765-00a0c91e6bf6`.
pub fn is_uuid(text: &str) -> bool
    ensures uuid { result ≡ spec.is_uuid text.now }
{
    fits(b"xxxxxxxx-xxxx-xxxx-xxxx-xxxxxxxxxxxx", text.as_bytes())
}
