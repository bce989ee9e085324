//! Internationalized resource identifiers. (RFC 3987)
ghost use Rattle.std.specs.Prelude.{◌≡◌};
ghost use Rattle.std.specs.List.{list_all};
ghost use Rattle.std.specs.Str.{chars};
ghost use Rattle.uri_references.specs.Views.{components_of};
ghost use Rattle.text_formats.specs.Iris as spec;
ghost use Rattle.text_formats.specs.Cutting.{text_read};

use crate::uris::fit;
use uri_references::Components;

// Returns whether an IRI may have this character outside ASCII.
fn is_universal(code: u32) -> bool
    ensures universal { result ≡ spec.is_universal code }
{
    matches!(code, 0xA0..=0xD7FF | 0xF900..=0xFDCF | 0xFDF0..=0xFFEF)
        || matches!(code, 0x10000..=0xEFFFD)
            && code % 0x10000 <= 0xFFFD
            && (code <= 0xDFFFF || 0xE1000 <= code)
}

// Returns whether a query may have this character in addition.
fn is_private(code: u32) -> bool
    ensures private { result ≡ spec.is_private code }
{
    matches!(code, 0xE000..=0xF8FF | 0xF0000..=0xFFFFD | 0x100000..=0x10FFFD)
}

fn is_universal_or_ascii(code: u32) -> bool
    ensures universal { result ≡ spec.is_universal_or_ascii code }
{
    code <= 127 || is_universal(code)
}

fn is_of_query(code: u32) -> bool
    ensures query { result ≡ spec.is_of_query code }
{
    is_universal_or_ascii(code) || is_private(code)
}

fn are_universal_or_ascii(text: &str) -> bool
    ensures universal { result ≡ list_all spec.is_universal_or_ascii (chars text.now) }
{
    text.chars()
        .all(|character| is_universal_or_ascii(u32::from(character)))
}

pub(crate) fn are_of_query(text: &str) -> bool
    ensures query { result ≡ list_all spec.is_of_query (chars text.now) }
{
    text.chars()
        .all(|character| is_of_query(u32::from(character)))
}

fn universal_fits(text: Option<&str>) -> bool
    ensures fits { result ≡ spec.universal_fits (text_read text.entry) }
{
    match text {
        Some(text) => are_universal_or_ascii(text),
        None => true,
    }
}

fn query_fits(text: Option<&str>) -> bool
    ensures fits { result ≡ spec.query_fits (text_read text.entry) }
{
    match text {
        Some(text) => are_of_query(text),
        None => true,
    }
}

fn characters_fit(components: &Components<'_>) -> bool
    ensures fit { result ≡ spec.characters_fit (components_of components.now) }
{
    universal_fits(components.authority)
        && are_universal_or_ascii(components.path)
        && query_fits(components.query)
        && universal_fits(components.fragment)
}

/// Returns whether a text is an IRI reference, such as `/ƒøø`.
pub fn is_iri_reference(text: &str) -> bool
    ensures iri_reference { result ≡ spec.is_iri_reference text.now }
{
    let components = Components::of(text);
    fit(true, &components) && characters_fit(&components)
}

/// Returns whether a text is an IRI, such as `http://ƒøø.ßår/?∂éœ=πîx`.
///
/// Unlike an IRI reference, an IRI always has a scheme.
pub fn is_iri(text: &str) -> bool
    ensures iri { result ≡ spec.is_iri text.now }
{
    let components = Components::of(text);
    components.scheme.is_some() && fit(true, &components) && characters_fit(&components)
}
