//! An example of custom keywords, with their table.
//!
//! The keywords are `minItems` and `contains`.
use keyword_authoring::{Asks, Plan, Planned, PlannedKeyword, is_list, item_count};
use keyword_makers::{Children, MakesByValue, MemberKeyword};
use schema_reports::{Instance, OutOfMemory};
use serde_json::Value;
use std::alloc::Global;

/// One of the two keywords.
#[derive(Clone, Copy)]
pub enum ArrayKeyword {
    /// `minItems`, with its limit.
    MinItems(u64),
    /// `contains`, whose value is its only child.
    Contains,
}

impl PlannedKeyword for ArrayKeyword {
    ghost use Rattle.std.specs.Prelude.{true};
    ghost use Rattle.example_keywords.specs.Arrays.{grows, name, planned, told};

    type Shape = ArrayKeyword;

    ghost shape = { λ k. k };

    ghost shows_no_fraction = { λ k. true };

    ghost planned = { planned };

    ghost called = { name };

    ghost error_text = { told };

    ghost says_monotone = { λ k. true };

    fn plan(&self, instance: Instance<'_>) -> Plan {
        if !is_list(instance) {
            return Plan::Holds(true);
        }
        match self {
            ArrayKeyword::MinItems(limit) => Plan::Holds(*limit <= item_count(instance) as u64),
            ArrayKeyword::Contains => Plan::AtLeast(Asks::Items, 1),
        }
    }

    fn name(&self) -> &str {
        match self {
            ArrayKeyword::MinItems(_) => "minItems",
            ArrayKeyword::Contains => "contains",
        }
    }

    fn text(
        &self,
        alloc: Global,
        instance: Instance<'_>,
        _accepted: usize,
    ) -> Result<String, OutOfMemory> {
        let mut text = instance.text(alloc)?;
        match self {
            ArrayKeyword::MinItems(limit) => {
                write!(text, " has less than {limit} items")?;
                Ok(text)
            }
            ArrayKeyword::Contains => {
                text.push_str(" has no item that is valid")?;
                Ok(text)
            }
        }
    }

    fn monotone(&self) -> bool {
        true
    }

    ghost grows = { grows };
}

/// The table that makes these keywords from a member's name and value.
#[derive(Drop)]
pub struct ArrayTable {}

impl MakesByValue<Planned<ArrayKeyword>> for ArrayTable {
    ghost use Rattle.std.specs.Prelude.{false, refl};
    ghost use Rattle.keyword_makers.specs.ByValue.{right_where_whole};
    ghost use Rattle.example_keywords.specs.Arrays.{made};

    ghost owned = { λ t name. false };

    ghost made = { λ t. made };

    fn owns(&self, _name: &str) -> bool {
        false
    }

    fn make(
        &self,
        _alloc: Global,
        name: &str,
        value: &Value,
    ) -> Result<MemberKeyword<Planned<ArrayKeyword>>, OutOfMemory> {
        if name == "minItems" {
            let Some(limit) = value.as_u64() else {
                return Ok(MemberKeyword::Malformed);
            };
            let keyword = ArrayKeyword::MinItems(limit);
            return Ok(MemberKeyword::Keyword(Planned { keyword }, Children::Childless));
        }
        if name == "contains" {
            let keyword = ArrayKeyword::Contains;
            return Ok(MemberKeyword::Keyword(Planned { keyword }, Children::Itself));
        }
        Ok(MemberKeyword::Nothing)
    }

    ghost right = { λ t name value. right_where_whole _ _ (λ k. refl) (λ k. refl) value (made name value) };
}
