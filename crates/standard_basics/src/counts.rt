//! The keywords that count: `minLength`, `maxLength` and `minProperties`.
ghost use Rattle.std.specs.Prelude.{◌≡◌, decimal, length, IfOk};
ghost use Rattle.std.specs.Str.{chars};
ghost use Rattle.schema_reports.specs.InstanceViews.{subject_of};
ghost use Rattle.standard_basics.specs.Counts.{allows, count_fits, count_name, count_of, count_text, count_words, counted};
ghost use Rattle.standard_basics.specs.Counts.{member_count, members_count, text_length};
ghost use Rattle.standard_basics.specs.BasicShape.{has_count};
ghost use Rattle.keyword_authoring.specs.TextWords.{ShowsText};
ghost use Rattle.standard_basics.specs.Telling.{Adds, TellsOwn};
ghost use Rattle.keyword_authoring.specs.Borrowing.{Retains};
ghost use Rattle.schema_traits.specs.Readings.{fields};

use keyword_authoring::{note, refuse};
use schema_reports::{Instance, OutOfMemory};
use schema_traits::{Answer, Mode};
use serde_json::{Map, Value};
use std::alloc::Global;

/// A keyword that counts the characters of a text or the members of an object.
#[derive(Clone, Copy)]
pub enum CountKind {
    MinLength,
    MaxLength,
    MinProperties,
}

impl CountKind {
    /// Returns the keyword's name.
    pub fn name(self) -> &'static str
        ensures name { result.now ≡ count_name self }
    {
        match self {
            CountKind::MinLength => "minLength",
            CountKind::MaxLength => "maxLength",
            CountKind::MinProperties => "minProperties",
        }
    }

    /// Returns the words before the limit in the error's text.
    fn words(self) -> &'static str
        ensures words { result.now ≡ count_words self }
    {
        match self {
            CountKind::MinLength => " is shorter than ",
            CountKind::MaxLength => " is longer than ",
            CountKind::MinProperties => " has less than ",
        }
    }

    /// Returns the words after the limit.
    fn counted(self, limit: u64) -> &'static str
        ensures counted { result.now ≡ counted self limit }
    {
        if limit == 1 {
            match self {
                CountKind::MinLength => " character",
                CountKind::MaxLength => " character",
                CountKind::MinProperties => " property",
            }
        } else {
            match self {
                CountKind::MinLength => " characters",
                CountKind::MaxLength => " characters",
                CountKind::MinProperties => " properties",
            }
        }
    }

    fn allows(self, limit: u64, count: usize) -> bool
        ensures allows { result ≡ allows self limit count }
    {
        match self {
            CountKind::MinLength => limit <= count as u64,
            CountKind::MaxLength => count as u64 <= limit,
            CountKind::MinProperties => limit <= count as u64,
        }
    }

    /// Returns the instance's count, or `None` if the keyword does not apply.
    fn count_of(self, instance: Instance<'_>) -> Option<usize>
        ensures count { result ≡ count_of self (subject_of instance.entry) }
    {
        match self {
            CountKind::MinLength => text_length(instance),
            CountKind::MaxLength => text_length(instance),
            CountKind::MinProperties => members_count(instance),
        }
    }
}

fn length_of(text: &str) -> usize
    ensures length { result ≡ length (chars text.now) }
{
    text.chars().count()
}

/// Returns the number of characters if the instance is a text or a name.
fn text_length(instance: Instance<'_>) -> Option<usize>
    ensures length { result ≡ text_length (subject_of instance.entry) }
{
    match instance {
        Instance::Name(name) => Some(length_of(name)),
        Instance::Value(value) => match value.as_str() {
            Some(text) => Some(length_of(text)),
            None => None,
        },
    }
}

/// Returns the number of members if the instance is an object.
pub fn members_count(instance: Instance<'_>) -> Option<usize>
    ensures count { result ≡ members_count (subject_of instance.entry) }
{
    match instance {
        Instance::Name(_) => None,
        Instance::Value(value) => match value.as_object() {
            Some(members) => Some(count_members(members)),
            None => None,
        },
    }
}

#[tactic(auto, using(crate::proofs::PropertyCounts::member_count_length))]
fn count_members(members: &Map<String, Value>) -> usize
    ensures count { result ≡ member_count (fields members.now) }
{
    members.len()
}

/// Returns whether the limit allows the instance's count.
///
/// An instance to which the keyword does not apply is allowed.
pub fn count_fits(kind: CountKind, limit: u64, instance: Instance<'_>) -> bool
    ensures fits { result ≡ count_fits kind limit (subject_of instance.entry) }
{
    match kind.count_of(instance) {
        Some(count) => kind.allows(limit, count),
        None => true,
    }
}

/// Returns the error's text.
///
/// # Errors
///
/// Out of memory.
pub fn count_text(
    alloc: Global,
    kind: CountKind,
    limit: u64,
    instance: Instance<'_>,
) -> Result<String, OutOfMemory>
    ensures text { IfOk result (ShowsText instance.entry (count_text kind limit)) }
{
    let mut text = instance.text(alloc)?;
    text.push_str(kind.words())?;
    push_decimal(&mut text, limit)?;
    text.push_str(kind.counted(limit))?;
    Ok(text)
}

/// Appends a number in decimal.
pub fn push_decimal(text: &mut String, number: u64) -> Result<(), OutOfMemory>
    ensures decimal { Adds result text.old text.new (decimal number) }
{
    write!(text, "{number}")
}

/// Reports an error unless the limit allows the instance's count.
pub fn tell_count<'i>(
    alloc: Global,
    kind: CountKind,
    limit: u64,
    mode: Mode,
    instance: Instance<'i>,
    answer: &mut Answer<'i>,
) -> Result<(), OutOfMemory>
    ensures told { TellsOwn (has_count kind limit) instance.entry mode answer.old answer.new result }
    ensures borrows { Retains answer.old answer.new result }
{
    if count_fits(kind, limit, instance) {
        return Ok(());
    }
    if mode == Mode::Verdict {
        refuse(alloc, answer);
        return Ok(());
    }
    let text = count_text(alloc, kind, limit, instance)?;
    note(alloc, mode, kind.name(), text, answer)
}
