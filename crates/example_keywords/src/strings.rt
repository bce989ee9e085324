//! An example of custom keywords, with their table.
//!
//! The keywords are `x-suffix`, `x-both` and `x-contains-between`.
ghost use Rattle.std.specs.Prelude.{◌≡◌, option_map};
ghost use Rattle.serde_json.specs.View.{view};
ghost use Rattle.example_keywords.specs.Strings.{by_members, shape_of};

use keyword_authoring::{Asks, Plan, Planned, PlannedKeyword, as_text, is_list, item_count};
use keyword_makers::{Children, MakesByValue, MemberKeyword};
use schema_reports::{Instance, OutOfMemory};
use serde_json::Value;
use std::alloc::Global;
use std::marker::Model;

/// One of the three keywords. `T` is the type of its text.
#[derive(Drop)]
pub enum StringKeyword<T = String> {
    /// `x-suffix`, with the end that a text must have.
    Suffix(T),
    /// `x-both`, whose value is an array of two schemas.
    Both,
    /// `x-contains-between`, with its bounds on the number of items that fit.
    ContainsBetween(usize, usize),
}

/// Takes the place of `String` in the keyword's shape.
///
/// Contracts see a text. The struct itself holds nothing.
#[derive(Drop)]
pub struct KnownText {}

impl Model for KnownText {
    ghost use Rattle.std.specs.Prelude.{[]};
    ghost use Rattle.theory_definitions.specs.Instance.{Text};

    ghost Value = { Text };

    ghost view = { λ _. [] };
}

impl PlannedKeyword for StringKeyword {
    ghost use Rattle.std.specs.Prelude.{false, true};
    ghost use Rattle.example_keywords.specs.Strings.{called, error_text, planned};

    type Shape = StringKeyword<KnownText>;

    ghost shape = { shape_of };

    ghost shows_no_fraction = { λ k. true };

    ghost planned = { planned };

    ghost called = { called };

    ghost error_text = { error_text };

    ghost says_monotone = { λ k. false };

    fn plan(&self, instance: Instance<'_>) -> Plan {
        match self {
            StringKeyword::Suffix(end) => match as_text(instance) {
                Some(text) => Plan::Holds(text.as_bytes().ends_with(end.as_bytes())),
                None => Plan::Holds(true),
            },
            StringKeyword::Both => Plan::PassesOn(Asks::Children(2)),
            StringKeyword::ContainsBetween(least, most) if is_list(instance) => {
                Plan::Within(Asks::Items, *least, *most)
            }
            StringKeyword::ContainsBetween(_, _) => Plan::Holds(true),
        }
    }

    fn name(&self) -> &str {
        match self {
            StringKeyword::Suffix(_) => "x-suffix",
            StringKeyword::Both => "x-both",
            StringKeyword::ContainsBetween(_, _) => "x-contains-between",
        }
    }

    fn text(
        &self,
        alloc: Global,
        instance: Instance<'_>,
        accepted: usize,
    ) -> Result<String, OutOfMemory> {
        let mut text = instance.text(alloc)?;
        match self {
            StringKeyword::Suffix(end) => write!(text, " does not end with \"{end}\"")?,
            StringKeyword::Both => {}
            StringKeyword::ContainsBetween(least, _) if accepted < *least => {
                write!(text, " has {accepted} items that fit, not {least}")?
            }
            StringKeyword::ContainsBetween(_, most) => write!(
                text,
                " has more than {most} items that fit"
            )?,
        }
        Ok(text)
    }

    fn monotone(&self) -> bool {
        false
    }

    ghost grows = { λ k s h. absurd (cc h) };
}

/// Returns `x-contains-between`, if the members of its value are well-formed.
fn contains_between(value: &Value) -> Option<StringKeyword>
    ensures shape { option_map shape_of result ≡ by_members (view value.now) }
{
    let _schema = value.get("schema")?;
    let least = value.get("min")?.as_u64()?;
    let most = value.get("max")?.as_u64()?;
    if least <= most {
        Some(StringKeyword::ContainsBetween(least as usize, most as usize))
    } else {
        None
    }
}

/// What a member of a schema makes.
type Made = MemberKeyword<Planned<StringKeyword>>;

/// The table that makes these keywords from a member's name and value.
#[derive(Drop)]
pub struct StringTable {}

impl MakesByValue<Planned<StringKeyword>> for StringTable {
    ghost use Rattle.std.specs.Prelude.{refl};
    ghost use Rattle.keyword_makers.specs.ByValue.{right_where_whole};
    ghost use Rattle.example_keywords.specs.Strings.{made, owned};

    ghost owned = { λ t. owned };

    ghost made = { λ t. made };

    fn owns(&self, name: &str) -> bool {
        name == "x-suffix" || name == "x-both" || name == "x-contains-between"
    }

    fn make(&self, alloc: Global, name: &str, value: &Value) -> Result<Made, OutOfMemory> {
        if name == "x-suffix" {
            let Some(end) = value.as_str() else {
                return Ok(MemberKeyword::Malformed);
            };
            let keyword = StringKeyword::Suffix(String::from_str(alloc, end)?);
            return Ok(MemberKeyword::Keyword(Planned { keyword }, Children::Childless));
        }
        if name == "x-both" {
            if item_count(Instance::Value(value)) != 2 {
                return Ok(MemberKeyword::Malformed);
            }
            let keyword = StringKeyword::Both;
            return Ok(MemberKeyword::Keyword(Planned { keyword }, Children::Items));
        }
        if name == "x-contains-between" {
            let Some(keyword) = contains_between(value) else {
                return Ok(MemberKeyword::Malformed);
            };
            return Ok(MemberKeyword::Keyword(Planned { keyword }, Children::Member("schema")));
        }
        Ok(MemberKeyword::Nothing)
    }

    ghost right = { λ t name value. right_where_whole _ _ (λ k. refl) (λ k. refl) value (made name value) };
}
