//! Resolution of a reference against a base (RFC 3986, section 5.2.2).
ghost use Rattle.std.specs.Prelude.{◌≡◌, IfOk, string_bytes};
ghost use Rattle.uri_references.specs.Normal.{resolved_normally};
ghost use Rattle.uri_references.specs.References as spec;
ghost use Rattle.uri_references.specs.Views.{components_of};

use crate::components::Components;
use crate::normal::compose_normally;
use crate::paths::{through_last_slash, without_dots};
use std::alloc::{AllocError, Global};

/// Resolves a reference against a base.
///
/// Resolution is strict: a reference with a scheme takes nothing from the base, even if the base
/// has the same scheme. Neither text is checked, and only the dots in a path are changed.
///
/// # Errors
///
/// Out of memory.
pub fn resolve(alloc: Global, base: &str, reference: &str) -> Result<String, AllocError>
    ensures resolved { IfOk result (λ s. string_bytes s ≡ spec.resolved base.now reference.now) }
{
    let base = Components::of(base);
    let reference = Components::of(reference);
    let path = target_path(alloc, &base, &reference)?;
    let target = target(&base, &reference, path.as_str());
    target.compose(alloc)
}

/// Resolves a reference against a base, and returns the target in normal form.
///
/// Its scheme and its host are in lower case.
///
/// # Errors
///
/// Out of memory.
pub fn resolve_normally(alloc: Global, base: &str, reference: &str) -> Result<String, AllocError>
    ensures resolved { IfOk result (λ s. string_bytes s ≡ resolved_normally base.now reference.now) }
{
    let base = Components::of(base);
    let reference = Components::of(reference);
    let path = target_path(alloc, &base, &reference)?;
    let target = target(&base, &reference, path.as_str());
    compose_normally(alloc, &target)
}

// Returns whether a reference has a scheme or an authority of its own.
fn is_apart(reference: &Components<'_>) -> bool
    ensures apart { result ≡ spec.is_apart (components_of reference.now) }
{
    reference.scheme.is_some() || reference.authority.is_some()
}

// Returns the components of the target, whose path is given.
fn target<'t>(base: &Components<'t>, reference: &Components<'t>, path: &'t str) -> Components<'t>
    requires { path.now ≡ spec.target_path (components_of base.now) (components_of reference.now) }
    ensures target { components_of result ≡ spec.target (components_of base.now) (components_of reference.now) }
{
    if is_apart(reference) {
        return Components {
            scheme: reference.scheme.or(base.scheme),
            path,
            ..*reference
        };
    }
    let query = if reference.path.is_empty() {
        reference.query.or(base.query)
    } else {
        reference.query
    };
    Components {
        scheme: base.scheme,
        authority: base.authority,
        path,
        query,
        fragment: reference.fragment,
    }
}

fn target_path(
    alloc: Global,
    base: &Components<'_>,
    reference: &Components<'_>,
) -> Result<String, AllocError>
    ensures path { IfOk result (λ s. string_bytes s ≡ spec.target_path (components_of base.now) (components_of reference.now)) }
{
    if is_apart(reference) || reference.path.starts_with('/') {
        return without_dots(alloc, reference.path);
    }
    if reference.path.is_empty() {
        return String::from_str(alloc, base.path);
    }
    let path = merged(alloc, base, reference.path)?;
    without_dots(alloc, path.as_str())
}

// Replaces the last segment of the base's path by a relative path.
fn merged(alloc: Global, base: &Components<'_>, path: &str) -> Result<String, AllocError>
    ensures merged { IfOk result (λ s. string_bytes s ≡ spec.merged (components_of base.now) path.now) }
{
    let mut text = String::new(alloc);
    if base.authority.is_some() && base.path.is_empty() {
        text.push('/')?;
    } else {
        text.push_str(through_last_slash(base.path))?;
    }
    text.push_str(path)?;
    Ok(text)
}
