//! URIs in normal form (RFC 3986, section 6.2.2.1).
ghost use Rattle.std.specs.Prelude.{◌≡◌, ◌++◌, [], IfOk, codes, option_map, string_bytes};
ghost use Rattle.uri_references.specs.Components.{around, composed};
ghost use Rattle.uri_references.specs.Normal as spec;
ghost use Rattle.uri_references.specs.Views.{components_of};

use crate::components::{Components, push_around};
use std::alloc::{AllocError, Global};

fn push_lower(alloc: Global, text: &mut String, more: &str) -> Result<(), AllocError>
    ensures pushed { IfOk result (λ _. string_bytes text.new ≡ string_bytes text.old ++ spec.lower more.now) }
{
    let lower = more.to_ascii_lowercase(alloc)?;
    text.push_str(lower.as_str())
}

// Appends a scheme in lower case, and its mark, if there is one.
fn push_scheme(alloc: Global, text: &mut String, scheme: Option<&str>) -> Result<(), AllocError>
    ensures pushed { IfOk result (λ _. string_bytes text.new
        ≡ string_bytes text.old ++ around [] (option_map spec.lower (option_map (λ t. t.now) scheme.entry)) (codes ":")) }
{
    if let Some(scheme) = scheme {
        push_lower(alloc, text, scheme)?;
        text.push_str(":")?;
    }
    Ok(())
}

// Appends an authority whose host is in lower case.
fn push_lower_host(alloc: Global, text: &mut String, authority: &str) -> Result<(), AllocError>
    ensures pushed { IfOk result (λ _. string_bytes text.new ≡ string_bytes text.old ++ spec.normal_authority authority.now) }
{
    match authority.split_once('@') {
        Some((user, host)) => {
            text.push_str(user)?;
            text.push_str("@")?;
            push_lower(alloc, text, host)
        }
        None => push_lower(alloc, text, authority),
    }
}

// Appends an authority after its mark, if there is one.
fn push_authority(
    alloc: Global,
    text: &mut String,
    authority: Option<&str>,
) -> Result<(), AllocError>
    ensures pushed { IfOk result (λ _. string_bytes text.new ≡ string_bytes text.old
        ++ around (codes "//") (option_map spec.normal_authority (option_map (λ t. t.now) authority.entry)) []) }
{
    if let Some(authority) = authority {
        text.push_str("//")?;
        push_lower_host(alloc, text, authority)?;
    }
    Ok(())
}

/// Joins components, with the scheme and the host in lower case.
///
/// # Errors
///
/// Out of memory.
pub(crate) fn compose_normally(
    alloc: Global,
    components: &Components<'_>,
) -> Result<String, AllocError>
    ensures composed { IfOk result (λ s. string_bytes s ≡ composed (spec.normal (components_of components.now))) }
{
    let mut text = String::new(alloc);
    push_scheme(alloc, &mut text, components.scheme)?;
    push_authority(alloc, &mut text, components.authority)?;
    text.push_str(components.path)?;
    push_around(&mut text, "?", components.query, "")?;
    push_around(&mut text, "#", components.fragment, "")?;
    Ok(text)
}

/// Returns a URI in normal form: its scheme and its host are in lower case.
///
/// # Errors
///
/// Out of memory.
pub fn normalized(alloc: Global, uri: &str) -> Result<String, AllocError>
    ensures normal { IfOk result (λ s. string_bytes s ≡ spec.normalized uri.now) }
{
    let components = Components::of(uri);
    compose_normally(alloc, &components)
}
