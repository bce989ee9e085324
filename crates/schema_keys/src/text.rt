//! Parts of references and of URIs.
ghost use Rattle.std.specs.Prelude.{◌≡◌, ◌==◌, codes};
ghost use Rattle.std.specs.List.{starts_with};
ghost use Rattle.theory_definitions.specs.Plan.{fragment, without_fragment};

/// Returns the text after the first `#`, or nothing if there is none.
pub(crate) fn fragment_of(text: &str) -> &str
    ensures fragment { result.now ≡ fragment text.now }
{
    match text.split_once('#') {
        Some(parts) => parts.1,
        None => "",
    }
}

/// Returns the text before the first `#`, or the whole text if there is none.
pub(crate) fn text_before_fragment(text: &str) -> &str
    ensures before { result.now ≡ without_fragment text.now }
{
    match text.split_once('#') {
        Some(parts) => parts.0,
        None => text,
    }
}

/// Returns whether a URI has the scheme of schemas without a URI of their own.
pub(crate) fn has_own_scheme(uri: &str) -> bool
    ensures scheme { result ≡ starts_with (λ x y. x == y) uri.now (codes "json-schema:") }
{
    uri.as_bytes().starts_with("json-schema:".as_bytes())
}
