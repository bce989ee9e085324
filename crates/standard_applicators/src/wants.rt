//! Members that require others in the same object.
ghost use Rattle.std.specs.Prelude.{◌≡◌, IfOk, string_bytes};
ghost use Rattle.std.specs.List.{list_any};
ghost use Rattle.schema_reports.specs.InstanceViews.{subject_of};
ghost use Rattle.standard_applicators.specs.Wanting.{is_unmet, required_text};
ghost use Rattle.keyword_authoring.specs.AnswerWords.{Becomes};
ghost use Rattle.standard_applicators.specs.UnmetWords.{with_unmet};
ghost use Rattle.schema_traits.specs.Showing.{Shows, Yields};
ghost use Rattle.keyword_authoring.specs.Borrowing.{Retains};

use keyword_authoring::{has_member, note, refuse};
use schema_reports::{Instance, OutOfMemory};
use schema_traits::{Answer, Mode};
use std::alloc::{AllocError, Global};
use std::marker::Model;

/// The name of a member, and a name that it requires.
#[derive(Drop)]
pub struct Want {
    member: String,
    wanted: String,
}

impl Model for Want {
    ghost use Rattle.std.specs.Prelude.{string_bytes};
    ghost use Rattle.theory_definitions.specs.Instance.{Text};

    ghost Value = { Text × Text };

    ghost view = { λ want. (string_bytes want.member, string_bytes want.wanted) };
}

impl Want {
    /// Returns the want that `member` requires `wanted`.
    pub fn new(alloc: Global, member: &str, wanted: &str) -> Result<Want, OutOfMemory>
        ensures want { Yields result (member.now, wanted.now) }
    {
        let member = String::from_str(alloc, member)?;
        let wanted = String::from_str(alloc, wanted)?;
        Ok(Want { member, wanted })
    }

    /// Returns whether the instance has the member, but not the required one.
    fn is_unmet(&self, instance: Instance<'_>) -> bool
        ensures unmet { result ≡ is_unmet (subject_of instance.entry) self.now }
    {
        has_member(instance, self.member.as_str()) && !has_member(instance, self.wanted.as_str())
    }

    /// Returns the text of its error.
    fn text(&self, alloc: Global) -> Result<String, OutOfMemory>
        ensures text { Shows string_bytes result (required_text self.now) }
    {
        let mut text = Instance::Name(self.wanted.as_str()).text(alloc)?;
        text.push_str(" is a required property")?;
        Ok(text)
    }
}

impl Clone for Want {
    ghost is_clone = { λ want copy. copy ≡ want };

    /// Returns a clone of the want.
    ///
    /// # Errors
    ///
    /// Out of memory.
    fn clone(&self) -> Result<Want, AllocError> {
        let member = self.member.clone()?;
        let wanted = self.wanted.clone()?;
        Ok(Want { member, wanted })
    }
}

/// A list of wants, in order.
#[derive(Drop)]
pub struct Wants {
    items: Vec<Want>,
}

impl Model for Wants {
    ghost use Rattle.std.specs.Prelude.{List};
    ghost use Rattle.theory_definitions.specs.Instance.{Text};

    ghost Value = { List (Text × Text) };

    ghost view = { λ wants. wants.items.items };
}

impl Wants {
    /// Returns the wants as one value.
    pub fn new(items: Vec<Want>) -> Wants
        ensures wants { result ≡ items.items }
    {
        Wants { items }
    }

    /// Returns the wants as a slice.
    pub fn as_slice(&self) -> &[Want]
        ensures wants { result.now ≡ self.now }
    {
        self.items.as_slice()
    }
}

impl Clone for Wants {
    ghost is_clone = { λ wants copy. copy ≡ wants };

    /// Returns a clone of the wants.
    ///
    /// # Errors
    ///
    /// Out of memory.
    fn clone(&self) -> Result<Wants, AllocError> {
        Ok(Wants {
            items: self.items.clone()?,
        })
    }
}

/// Returns whether one of the wants is unmet.
pub fn has_unmet(wants: &[Want], instance: Instance<'_>) -> bool
    ensures unmet { result ≡ list_any (is_unmet (subject_of instance.entry)) wants.now }
{
    wants.iter().any(|want| want.is_unmet(instance))
}

/// Reports an error for each unmet want, in order.
pub fn tell_unmet<'i>(
    alloc: Global,
    wants: &[Want],
    mode: Mode,
    instance: Instance<'i>,
    answer: &mut Answer<'i>,
) -> Result<(), OutOfMemory>
    ensures told { IfOk result (λ _. Becomes answer.old (with_unmet wants.now instance.entry mode) answer.new) }
    ensures borrows { Retains answer.old answer.new result }
{
    if mode == Mode::Verdict {
        if has_unmet(wants, instance) {
            refuse(alloc, answer);
        }
        return Ok(());
    }
    for want in wants {
        if want.is_unmet(instance) {
            let text = want.text(alloc)?;
            note(alloc, mode, "dependencies", text, answer)?;
        }
    }
    Ok(())
}
