//! The assertions as one keyword type.
ghost use Rattle.std.specs.Prelude.{◌≡◌, ◌∷◌, [], IfOk, string_bytes, true};
ghost use Rattle.schema_reports.specs.InstanceViews.{subject_of};
ghost use Rattle.standard_assertions.specs.Assertions.{error_text, holds, shows_no_fraction};
ghost use Rattle.keyword_authoring.specs.TextWords.{ShowsText};
ghost use Rattle.schema_traits.specs.Readings.{ListsTexts};

use crate::constants::{
    constant_text, distinct_text, has_distinct_items, has_distinct_items_by_pairs, is_constant,
    is_listed, listed_text,
};
use crate::dependents::{has_dependents, missing_texts};
use crate::limits::{LimitKind, keeps_limit, limit_text};
use crate::multiples::{is_multiple, multiple_text};
use crate::numbers::HeldNumber;
use crate::sizes::{SizeKind, size_fits, size_text};
use crate::types::{Integers, TypeList, fits, fits_one};
use json_values::HeldValue;
use keyword_authoring::{TellingKeyword, item_count};
use schema_reports::{Instance, OutOfMemory};
use standard_basics::{CountKind, TypeName, count_fits, count_text, type_text, types_text};
use std::alloc::Global;

/// A keyword that evaluates no schema, such as `type` or `minimum`.
///
/// `V` is the type of the values of the schema that a keyword stores. If a keyword does not apply
/// to instances of a type, then it holds of them.
#[derive(Drop)]
pub enum Assertion<V = HeldValue> {
    /// `type` with one name.
    Type(Integers, TypeName),
    /// `type` with a list of names.
    Types(Integers, TypeList),
    /// `const`, with its value.
    Const(V),
    /// `enum`, with its value, a list.
    Enum(V),
    /// A keyword that limits numbers, with its limit.
    Limit(LimitKind, HeldNumber),
    /// `multipleOf`, with its divisor.
    MultipleOf(HeldNumber),
    /// A keyword that counts items or members, with its limit.
    Size(SizeKind, u64),
    /// A keyword that counts characters or members, with its limit.
    Count(CountKind, u64),
    /// `uniqueItems` with the value `true`.
    UniqueItems,
    /// `dependentRequired`, with its value: an object of lists of names.
    DependentRequired(V),
}

/// The largest number of items for which `uniqueItems` has a verdict at once.
///
/// That verdict allocates nothing, and so compares each pair of items.
const FEW: usize = 8;

impl Assertion {
    /// Returns whether the keyword holds of an instance.
    ///
    /// It allocates nothing. Therefore, `uniqueItems` compares each pair of items.
    #[inline(always)]
    fn holds_by_pairs(&self, instance: Instance<'_>) -> bool
        ensures holds { result ≡ holds self.now (subject_of instance.entry) }
    {
        match self {
            Assertion::Type(integers, name) => fits(*integers, *name, instance),
            Assertion::Types(integers, types) => fits_one(*integers, types, instance),
            Assertion::Const(constant) => is_constant(constant, instance),
            Assertion::Enum(values) => is_listed(values, instance),
            Assertion::Limit(kind, limit) => keeps_limit(*kind, limit, instance),
            Assertion::MultipleOf(divisor) => is_multiple(divisor, instance),
            Assertion::Size(kind, limit) => size_fits(*kind, *limit, instance),
            Assertion::Count(kind, limit) => count_fits(*kind, *limit, instance),
            Assertion::UniqueItems => has_distinct_items_by_pairs(instance),
            Assertion::DependentRequired(dependents) => has_dependents(dependents, instance),
        }
    }

    /// Returns the text of the keyword's one error.
    ///
    /// It is empty for `dependentRequired`, which has an error for each missing name.
    fn text(&self, alloc: Global, instance: Instance<'_>) -> Result<String, OutOfMemory>
        ensures text { IfOk result (λ text. shows_no_fraction self.now ≡ true → ShowsText instance.entry (error_text self.now) text) }
    {
        match self {
            Assertion::Type(_, name) => type_text(alloc, *name, instance),
            Assertion::Types(_, types) => types_text(alloc, types.names.as_slice(), instance),
            Assertion::Const(constant) => constant_text(alloc, constant),
            Assertion::Enum(values) => listed_text(alloc, values, instance),
            Assertion::Limit(kind, limit) => limit_text(alloc, *kind, limit, instance),
            Assertion::MultipleOf(divisor) => multiple_text(alloc, divisor, instance),
            Assertion::Size(kind, limit) => size_text(alloc, *kind, *limit, instance),
            Assertion::Count(kind, limit) => count_text(alloc, *kind, *limit, instance),
            Assertion::UniqueItems => distinct_text(alloc, instance),
            Assertion::DependentRequired(_) => Ok(String::new(alloc)),
        }
    }
}

fn one_text(alloc: Global, text: String) -> Result<Vec<String>, OutOfMemory>
    ensures one { ListsTexts result (string_bytes text ∷ []) }
{
    let mut texts = Vec::new(alloc);
    texts.push(text)?;
    Ok(texts)
}

impl TellingKeyword for Assertion {
    ghost use Rattle.standard_assertions.specs.Assertions.{called, error_texts, shows_no_fraction};

    type Shape = Assertion;

    ghost shape = { λ k. k };

    ghost shows_no_fraction = { shows_no_fraction };

    ghost called = { called };

    ghost error_texts = { error_texts };

    fn name(&self) -> &str {
        match self {
            Assertion::Type(_, _) => "type",
            Assertion::Types(_, _) => "type",
            Assertion::Const(_) => "const",
            Assertion::Enum(_) => "enum",
            Assertion::Limit(kind, _) => kind.name(),
            Assertion::MultipleOf(_) => "multipleOf",
            Assertion::Size(kind, _) => kind.name(),
            Assertion::Count(kind, _) => kind.name(),
            Assertion::UniqueItems => "uniqueItems",
            Assertion::DependentRequired(_) => "dependentRequired",
        }
    }

    #[inline(always)]
    fn holds_at_once(&self, instance: Instance<'_>) -> Option<bool> {
        match self {
            Assertion::UniqueItems if FEW < item_count(instance) => None,
            _ => Some(self.holds_by_pairs(instance)),
        }
    }

    fn holds(&self, alloc: Global, instance: Instance<'_>) -> Result<bool, OutOfMemory> {
        match self {
            Assertion::UniqueItems => has_distinct_items(alloc, instance),
            _ => Ok(self.holds_by_pairs(instance)),
        }
    }

    fn texts(&self, alloc: Global, instance: Instance<'_>) -> Result<Vec<String>, OutOfMemory> {
        match self {
            Assertion::DependentRequired(dependents) => missing_texts(alloc, dependents, instance),
            _ => {
                let text = self.text(alloc, instance)?;
                one_text(alloc, text)
            }
        }
    }
}
