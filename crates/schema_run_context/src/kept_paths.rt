//! A cache of evaluation paths under references.
//!
//! It is used once many of them were requested.
ghost use Rattle.std.specs.Prelude.{◌≡◌, ◌≢◌, ◌<◌, ◌≤◌, ◌++◌, ℕ, [], List, false, length, take, true, OnSome};
ghost use Rattle.std.specs.Prelude.{IfNone, IfOk, IfSome, OnErr, OnOk};
ghost use Rattle.theory_definitions.specs.Pointer.{joined};
ghost use Rattle.schema_run_context.specs.EvaluationPaths.{GivesPath, IsPathTo, is_under_reference, path_of};
ghost use Rattle.schema_run_context.specs.KeptPaths.{IsKept, IsKeptAt, counted, hash_for, hashed, key_for, right_path};

use crate::evaluation_path::{EvaluationPath, path_from};
use schema_reports::{Location, OutOfMemory};
use std::alloc::Global;
use std::collections::HashMap;
use std::hash::{FoldHasher, Hasher};
use std::marker::Model;

/// Caching begins with this request for a path under a reference.
const KEPT_FROM: u32 = 4096;

/// A path and the parts that it was built from.
///
/// The first `before` bytes are the path before the keyword; the keyword's name and the rest
/// follow. Contracts see the parts, and the path is always the right one for them.
#[derive(Drop)]
struct KeptPath {
    path: Location,
    before: usize,
    name: String,
    rest: String,
}

impl Model for KeptPath {
    ghost use Rattle.std.specs.Prelude.{◌≡◌, ◌≤◌, length, string_bytes, take};
    ghost use Rattle.schema_run_context.specs.KeptPaths.{PathKey, right_path};

    ghost Value = { PathKey };

    ghost view = { λ k. record { before = take k.before k.path; name = string_bytes k.name; rest = string_bytes k.rest } };

    ghost invariant = { λ k. (k.before ≤ length k.path) × (k.path
        ≡ right_path (record { before = take k.before k.path; name = string_bytes k.name; rest = string_bytes k.rest })) };
}

// Returns what follows a path in a text, if the text begins with the path.
fn left_after<'t>(text: &'t [u8], path: &EvaluationPath<'_>) -> Option<&'t [u8]>
    ensures left { IfSome result (λ left. text.now ≡ path_of path.now ++ left.now) }
    ensures none { IfNone result ((left : List ℕ) → text.now ≢ path_of path.now ++ left) }
{
    match path {
        EvaluationPath::Given(whole) => text.strip_prefix(whole.as_str().as_bytes()),
        EvaluationPath::Across(before, added) => {
            let left = left_after(text, before)?;
            left.strip_prefix(added.as_str().as_bytes())
        }
        EvaluationPath::UnderReference(before) => left_after(text, before),
        EvaluationPath::Kept(_, texts) => text.strip_prefix(texts.path.as_str().as_bytes()),
    }
}

fn write_path(hasher: &mut FoldHasher, path: &EvaluationPath<'_>)
    ensures written { hasher.new ≡ hashed hasher.old path.now }
{
    match path {
        EvaluationPath::Given(whole) => hasher.write(whole.as_str().as_bytes()),
        EvaluationPath::Across(before, added) => {
            write_path(hasher, before);
            hasher.write(added.as_str().as_bytes());
        }
        EvaluationPath::UnderReference(before) => write_path(hasher, before),
        EvaluationPath::Kept(_, texts) => hasher.write(texts.path.as_str().as_bytes()),
    }
}

// Returns the hash by which a path is cached.
fn path_hash(path: &EvaluationPath<'_>, name: &str, rest: &str) -> u64
    ensures hash { result ≡ hash_for path.now name.now rest.now }
{
    let mut hasher = FoldHasher::default();
    write_path(&mut hasher, path);
    hasher.write(name.as_bytes());
    hasher.write(rest.as_bytes());
    hasher.finish()
}

impl KeptPath {
    // Copies a path that was built from its first `before` bytes, a name and a rest.
    fn new(
        alloc: Global,
        path: &Location,
        before: usize,
        name: &str,
        rest: &str,
    ) -> Result<KeptPath, OutOfMemory>
        requires within { before ≤ length path.now }
        requires right { path.now ≡ joined (take before path.now) name.now ++ rest.now }
        ensures key { IfOk result (λ k. k ≡ record { before = take before path.now; name = name.now; rest = rest.now }) }
    {
        let path = path.clone()?;
        let name = String::from_str(alloc, name)?;
        let rest = String::from_str(alloc, rest)?;
        Ok(KeptPath {
            path,
            before,
            name,
            rest,
        })
    }

    // Returns whether the path was built from these parts.
    fn is(&self, path: &EvaluationPath<'_>, name: &str, rest: &str) -> bool
        ensures same { result ≡ true → self.now ≡ key_for path.now name.now rest.now }
        ensures other { result ≡ false → self.now ≢ key_for path.now name.now rest.now }
    {
        if self.name.as_str() != name || self.rest.as_str() != rest {
            return false;
        }
        let before = &self.path.as_str().as_bytes()[..self.before];
        match left_after(before, path) {
            Some(left) => left.is_empty(),
            None => false,
        }
    }

    fn path(&self) -> &Location
        ensures right { result.now ≡ right_path self.now }
    {
        &self.path
    }
}

/// A cache of evaluation paths under references.
///
/// `calls` is the number of paths that were requested, up to a threshold. `paths` holds the paths
/// that were built since the threshold was reached, by the hash of their parts. Of two paths with
/// the same hash the later one is cached.
#[derive(Drop)]
pub struct KeptPaths {
    calls: u32,
    paths: HashMap<u64, KeptPath>,
}

impl Model for KeptPaths {
    ghost use Rattle.std.specs.Prelude.{◌≤◌};
    ghost use Rattle.schema_run_context.specs.KeptPaths.{Keeping};

    ghost Value = { Keeping };

    ghost view = { λ k. record { calls = k.calls; kept = k.paths.entries } };

    ghost invariant = { λ k. k.calls ≤ 4096 };
}

impl KeptPaths {
    /// Returns an empty cache. Allocates nothing.
    pub fn new(alloc: Global) -> KeptPaths
        ensures none { result ≡ record { calls = 0; kept = [] } }
    {
        KeptPaths {
            calls: 0,
            paths: HashMap::new(alloc),
        }
    }

    /// Returns the number of cached paths.
    pub fn len(&self) -> usize
        ensures len { result ≡ length self.now.kept }
    {
        self.paths.len()
    }

    // Counts a request for a path under a reference, and returns whether its path is to be cached.
    fn counts(&mut self) -> bool
        ensures calls { self.new.calls ≡ counted KEPT_FROM true self.old.calls }
        ensures keeps { result ≡ true → self.new.calls ≡ KEPT_FROM }
        ensures early { result ≡ false → self.new.calls < KEPT_FROM }
        ensures kept { self.new.kept ≡ self.old.kept }
    {
        if self.calls < KEPT_FROM {
            self.calls += 1;
        }
        self.calls == KEPT_FROM
    }

    // Returns the path that is cached by a hash, if it was built from these parts.
    fn kept(
        &self,
        hash: u64,
        path: &EvaluationPath<'_>,
        name: &str,
        rest: &str,
    ) -> Option<&Location>
        ensures right { IfSome result (λ l. IsPathTo path.now name.now rest.now l.now) }
        ensures found { OnSome result (IsKeptAt self.now.kept hash path.now name.now rest.now) }
        ensures none { IfNone result (¬ IsKeptAt self.now.kept hash path.now name.now rest.now) }
    {
        let kept = self.paths.get(&hash)?;
        if kept.is(path, name, rest) {
            Some(kept.path())
        } else {
            None
        }
    }

    // Builds a path, and caches it by a hash.
    fn keep(
        &mut self,
        alloc: Global,
        hash: u64,
        path: &EvaluationPath<'_>,
        name: &str,
        rest: &str,
    ) -> Result<Location, OutOfMemory>
        ensures path { GivesPath path.now name.now rest.now result }
        ensures calls { self.new.calls ≡ self.old.calls }
        ensures kept { OnOk result (IsKeptAt self.new.kept hash path.now name.now rest.now) }
        ensures unchanged { OnErr result (self.new.kept ≡ self.old.kept) }
    {
        let before = path.made(alloc)?;
        let made = path_from(alloc, &before, name, rest)?;
        let kept = KeptPath::new(alloc, &made, before.as_str().len(), name, rest)?;
        self.paths.insert(hash, kept)?;
        Ok(made)
    }

    /// Returns a path, continued by a keyword's name and the rest.
    ///
    /// The path is always the one that `EvaluationPath::of_keyword` returns. A path that is not
    /// under a reference is built anew, and so are the first ones under references. From then on
    /// each path under a reference is cached when it is built, and read from the cache when it is
    /// requested again.
    ///
    /// # Errors
    ///
    /// Out of memory.
    pub fn evaluation_path(
        &mut self,
        alloc: Global,
        path: &EvaluationPath<'_>,
        name: &str,
        rest: &str,
    ) -> Result<Location, OutOfMemory>
        ensures path { GivesPath path.now name.now rest.now result }
        ensures calls { self.new.calls ≡ counted KEPT_FROM (is_under_reference path.now) self.old.calls }
        ensures plain { is_under_reference path.now ≡ false → self.new.kept ≡ self.old.kept }
        ensures early { self.new.calls < KEPT_FROM → self.new.kept ≡ self.old.kept }
        ensures keeps { OnOk result (is_under_reference path.now ≡ true → self.new.calls ≡ KEPT_FROM
            → IsKept self.new.kept path.now name.now rest.now) }
        ensures reads { IsKept self.old.kept path.now name.now rest.now → self.new.kept ≡ self.old.kept }
        ensures unchanged { OnErr result (self.new.kept ≡ self.old.kept) }
    {
        if !path.is_under_reference() || !self.counts() {
            return path.of_keyword(alloc, name, rest);
        }
        let hash = path_hash(path, name, rest);
        match self.kept(hash, path, name, rest) {
            Some(found) => Ok(found.clone()?),
            None => self.keep(alloc, hash, path, name, rest),
        }
    }
}
