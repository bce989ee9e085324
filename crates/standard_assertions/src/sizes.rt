//! The keywords `minItems`, `maxItems` and `maxProperties`.
//!
//! (JSON Schema Validation 2020-12, 6.4.1, 6.4.2 and 6.5.1)
ghost use Rattle.std.specs.Prelude.{◌≡◌, IfOk};
ghost use Rattle.schema_reports.specs.InstanceViews.{subject_of};
ghost use Rattle.standard_assertions.specs.Sizes.{allows, counted, items_count, size_fits, size_name, size_of, size_text, size_words};
ghost use Rattle.keyword_authoring.specs.TextWords.{ShowsText};

use keyword_authoring::{is_list, item_count};
use schema_reports::{Instance, OutOfMemory};
use standard_basics::{members_count, push_decimal};
use std::alloc::Global;

/// A keyword that limits the number of items or members.
#[derive(Clone, Copy)]
pub enum SizeKind {
    MinItems,
    MaxItems,
    MaxProperties,
}

impl SizeKind {
    /// Returns the keyword's name.
    pub fn name(self) -> &'static str
        ensures name { result.now ≡ size_name self }
    {
        match self {
            SizeKind::MinItems => "minItems",
            SizeKind::MaxItems => "maxItems",
            SizeKind::MaxProperties => "maxProperties",
        }
    }

    /// Returns the words before the limit in the error's text.
    fn words(self) -> &'static str
        ensures words { result.now ≡ size_words self }
    {
        match self {
            SizeKind::MinItems => " has less than ",
            SizeKind::MaxItems => " has more than ",
            SizeKind::MaxProperties => " has more than ",
        }
    }

    /// Returns the words after the limit.
    fn counted(self, limit: u64) -> &'static str
        ensures counted { result.now ≡ counted self limit }
    {
        if limit == 1 {
            match self {
                SizeKind::MinItems => " item",
                SizeKind::MaxItems => " item",
                SizeKind::MaxProperties => " property",
            }
        } else {
            match self {
                SizeKind::MinItems => " items",
                SizeKind::MaxItems => " items",
                SizeKind::MaxProperties => " properties",
            }
        }
    }

    fn allows(self, limit: u64, size: usize) -> bool
        ensures allows { result ≡ allows self limit size }
    {
        match self {
            SizeKind::MinItems => limit <= size as u64,
            SizeKind::MaxItems => size as u64 <= limit,
            SizeKind::MaxProperties => size as u64 <= limit,
        }
    }

    /// Returns the instance's size, or `None` if the keyword does not apply.
    fn size_of(self, instance: Instance<'_>) -> Option<usize>
        ensures size { result ≡ size_of self (subject_of instance.entry) }
    {
        match self {
            SizeKind::MinItems => items_count(instance),
            SizeKind::MaxItems => items_count(instance),
            SizeKind::MaxProperties => members_count(instance),
        }
    }
}

/// Returns the number of items if the instance is a list.
fn items_count(instance: Instance<'_>) -> Option<usize>
    ensures count { result ≡ items_count (subject_of instance.entry) }
{
    if is_list(instance) {
        Some(item_count(instance))
    } else {
        None
    }
}

/// Returns whether the limit allows the instance's size.
///
/// An instance to which the keyword does not apply is allowed.
pub fn size_fits(kind: SizeKind, limit: u64, instance: Instance<'_>) -> bool
    ensures fits { result ≡ size_fits kind limit (subject_of instance.entry) }
{
    match kind.size_of(instance) {
        Some(size) => kind.allows(limit, size),
        None => true,
    }
}

/// Returns the error's text.
///
/// # Errors
///
/// Out of memory.
pub fn size_text(
    alloc: Global,
    kind: SizeKind,
    limit: u64,
    instance: Instance<'_>,
) -> Result<String, OutOfMemory>
    ensures text { IfOk result (ShowsText instance.entry (size_text kind limit)) }
{
    let mut text = instance.text(alloc)?;
    text.push_str(kind.words())?;
    push_decimal(&mut text, limit)?;
    text.push_str(kind.counted(limit))?;
    Ok(text)
}
