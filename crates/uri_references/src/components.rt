//! The five components of a reference (RFC 3986, section 3 and appendix B).
ghost use Rattle.std.specs.Prelude.{◌≡◌, ◌++◌, ◌<◌, ◌≤◌, ◌==◌, IfOk, option_map, string_bytes};
ghost use Rattle.std.specs.List.{position_or_len};
ghost use Rattle.uri_references.specs.Components as spec;
ghost use Rattle.uri_references.specs.Components.{around};
ghost use Rattle.uri_references.specs.Views.{components_of, found_of};

use std::alloc::{AllocError, Global};

// A component that ends at one of its marks.
#[derive(Clone, Copy)]
enum Component {
    Scheme,
    Authority,
    Path,
    Query,
}

impl Component {
    fn ends(self, byte: u8) -> bool
        ensures ends { result ≡ spec.ends self byte }
    {
        match self {
            Component::Scheme => matches!(byte, b':' | b'/' | b'?' | b'#'),
            Component::Authority => matches!(byte, b'/' | b'?' | b'#'),
            Component::Path => matches!(byte, b'?' | b'#'),
            Component::Query => byte == b'#',
        }
    }

    // Returns where the component ends in a text that begins with it.
    fn end_in(self, text: &[u8]) -> usize
        ensures end { result ≡ position_or_len (spec.ends self) text.now }
    {
        for place in 0..text.len() {
            if self.ends(text[place]) {
                return place;
            }
        }
        text.len()
    }

    // Splits a text at the end of the component.
    fn split(self, text: &str) -> (&str, &str)
        ensures before { result.0.now ≡ spec.before self text.now }
        ensures rest { result.1.now ≡ spec.rest self text.now }
    {
        let end = self.end_in(text.as_bytes());
        (&text[..end], &text[end..])
    }

    // Splits the component off `after`, which is the text after the component's mark, if the mark
    // was found.
    fn found<'t>(self, text: &'t str, after: Option<&'t str>) -> Found<'t>
        ensures found { found_of result ≡ spec.up_to_end self text.now (option_map (λ t. t.now) after.entry) }
    {
        match after {
            Some(after) => {
                let (component, left) = self.split(after);
                Found {
                    component: Some(component),
                    left,
                }
            }
            None => Found {
                component: None,
                left: text,
            },
        }
    }
}

// A component, if there is one, and the text that follows it.
#[derive(Clone, Copy)]
struct Found<'t> {
    component: Option<&'t str>,
    left: &'t str,
}

/// The components of a reference, each without its mark.
///
/// Only the path is always present.
#[derive(Clone, Copy)]
pub struct Components<'t> {
    pub scheme: Option<&'t str>,
    pub authority: Option<&'t str>,
    pub path: &'t str,
    pub query: Option<&'t str>,
    pub fragment: Option<&'t str>,
}

impl<'t> Components<'t> {
    /// Splits a text into its components. Every text has them.
    pub fn of(text: &'t str) -> Components<'t>
        ensures components { components_of result ≡ spec.components text.now }
    {
        let scheme = scheme_in(text);
        let authority = authority_in(scheme.left);
        let (path, left) = Component::Path.split(authority.left);
        let query = Component::Query.found(left, after_mark(left, '?'));
        Components {
            scheme: scheme.component,
            authority: authority.component,
            path,
            query: query.component,
            fragment: after_mark(query.left, '#'),
        }
    }

    /// Joins the components, each with its mark.
    ///
    /// # Errors
    ///
    /// Out of memory.
    pub fn compose(&self, alloc: Global) -> Result<String, AllocError>
        ensures composed { IfOk result (λ s. string_bytes s ≡ spec.composed (components_of self.now)) }
    {
        let mut text = String::new(alloc);
        push_around(&mut text, "", self.scheme, ":")?;
        push_around(&mut text, "//", self.authority, "")?;
        text.push_str(self.path)?;
        push_around(&mut text, "?", self.query, "")?;
        push_around(&mut text, "#", self.fragment, "")?;
        Ok(text)
    }
}

// Returns the text after its first byte, if that is the mark.
fn after_mark(text: &str, mark: char) -> Option<&str>
    requires { mark < 128 }
    ensures after { option_map (λ t. t.now) result ≡ spec.after_mark mark text.now }
{
    text.strip_prefix(mark)
}

fn scheme_in(text: &str) -> Found<'_>
    ensures found { found_of result ≡ spec.scheme_in text.now }
{
    let (scheme, rest) = Component::Scheme.split(text);
    match after_mark(rest, ':') {
        Some(left) if !scheme.is_empty() => Found {
            component: Some(scheme),
            left,
        },
        _ => Found {
            component: None,
            left: text,
        },
    }
}

fn authority_in(text: &str) -> Found<'_>
    ensures found { found_of result ≡ spec.authority_in text.now }
{
    let after = match after_mark(text, '/') {
        Some(after) => after_mark(after, '/'),
        None => None,
    };
    Component::Authority.found(text, after)
}

// Appends a component between its marks, if there is one.
pub(crate) fn push_around(
    text: &mut String,
    front: &str,
    component: Option<&str>,
    back: &str,
) -> Result<(), AllocError>
    ensures pushed { IfOk result (λ _. string_bytes text.new
        ≡ string_bytes text.old ++ around front.now (option_map (λ t. t.now) component.entry) back.now) }
{
    if let Some(component) = component {
        text.push_str(front)?;
        text.push_str(component)?;
        text.push_str(back)?;
    }
    Ok(())
}
