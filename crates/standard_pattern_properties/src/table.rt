//! The table of `patternProperties` and `additionalProperties`.
ghost use Rattle.std.specs.Prelude.{◌≡◌};
ghost use Rattle.serde_json.specs.Find.{as_object};
ghost use Rattle.serde_json.specs.View.{view};
ghost use Rattle.keyword_makers.specs.MakerViews.{waiting_of};
ghost use Rattle.standard_pattern_properties.specs.Making.{beside_of, is_false, names_of_value};
ghost use Rattle.standard_pattern_properties.specs.Making.{others_script, patterns_script};
ghost use Rattle.schema_traits.specs.Showing.{Yields};
ghost use Rattle.schema_traits.specs.Readings.{fields, value_read};
ghost use Rattle.standard_pattern_properties.specs.MakerWords.{Follows, script_of_member, script_of_value};

use crate::keyword::{GatedKeyword, Neighbours};
use crate::listed::Listed;
use crate::names::Texts;
use keyword_makers::{
    Ending, PathsMaker, asks_for, ends, malformed, only_child, value_in, values_below,
};
use schema_drafts::{BuiltinKeyword, Draft, VocabularySet};
use schema_reports::OutOfMemory;
use schema_traits::{KeywordOrigin, KeywordTable, MakerReply, MakerStep};
use serde_json::{Map, Value};
use std::alloc::Global;

/// The maker of these keywords.
type Maker = PathsMaker<GatedKeyword>;

/// Returns the names that `properties` lists.
///
/// There are none if its value is missing or is no object.
fn listed_of(alloc: Global, value: Option<&Value>) -> Result<Listed, OutOfMemory>
    ensures listed { Yields result (names_of_value (value_read value.entry)) }
{
    match value {
        None => Ok(Listed::none(alloc)),
        Some(value) => match value.as_object() {
            None => Ok(Listed::none(alloc)),
            Some(members) => Listed::of_members(alloc, members),
        },
    }
}

/// Returns the patterns of `patternProperties`.
///
/// There are none if its value is missing or is no object.
fn patterns_of(alloc: Global, value: Option<&Value>) -> Result<Texts, OutOfMemory>
    ensures patterns { Yields result (names_of_value (value_read value.entry)) }
{
    match value {
        None => Ok(Texts::none(alloc)),
        Some(value) => match value.as_object() {
            None => Ok(Texts::none(alloc)),
            Some(members) => Texts::of_members(alloc, members),
        },
    }
}

/// Returns the members beside `additionalProperties` that it reads.
fn beside_of(alloc: Global, object: &Map<String, Value>) -> Result<Neighbours, OutOfMemory>
    ensures beside { Yields result (beside_of (fields object.now)) }
{
    Ok(Neighbours {
        listed: listed_of(alloc, value_in(object, "properties"))?,
        patterns: patterns_of(alloc, value_in(object, "patternProperties"))?,
    })
}

/// Returns whether a value is `false`.
fn is_false(value: &Value) -> bool
    ensures is_false { result ≡ is_false (view value.now) }
{
    match value {
        Value::Bool(truth) => !*truth,
        _ => false,
    }
}

/// Returns the maker of `patternProperties`.
fn patterns_maker(alloc: Global, name: &str, value: &Value) -> Result<Maker, OutOfMemory>
    ensures maker { Follows result (patterns_script name.now (view value.now) (as_object (view value.now))) }
{
    match value.as_object() {
        Some(members) => {
            let patterns = Texts::of_members(alloc, members)?;
            let paths = values_below(alloc, name, patterns.as_slice())?;
            Ok(asks_for(paths, GatedKeyword::PatternProperties(patterns)))
        }
        None => malformed(alloc, name, value),
    }
}

/// Returns the maker of `additionalProperties`.
fn others_maker(
    alloc: Global,
    name: &str,
    value: &Value,
    object: &Map<String, Value>,
) -> Result<Maker, OutOfMemory>
    ensures maker { Follows result (others_script (fields object.now) name.now (view value.now)) }
{
    let beside = beside_of(alloc, object)?;
    if is_false(value) {
        let keyword = GatedKeyword::NoAdditionalProperties(beside);
        return Ok(ends(alloc, Ending::Keyword(keyword)));
    }
    only_child(alloc, name, GatedKeyword::AdditionalProperties(beside))
}

/// Returns the maker of a keyword with this value.
fn value_maker(
    alloc: Global,
    keyword: BuiltinKeyword,
    value: &Value,
    object: &Map<String, Value>,
) -> Result<Maker, OutOfMemory>
    ensures maker { Follows result (script_of_value object.now keyword value.now) }
{
    let name = keyword.as_str();
    match keyword {
        BuiltinKeyword::PatternProperties => patterns_maker(alloc, name, value),
        BuiltinKeyword::AdditionalProperties => others_maker(alloc, name, value, object),
        // Other tables make these, or none does.
        BuiltinKeyword::TypeKeyword
        | BuiltinKeyword::Const
        | BuiltinKeyword::Enum
        | BuiltinKeyword::Minimum
        | BuiltinKeyword::Maximum
        | BuiltinKeyword::ExclusiveMinimum
        | BuiltinKeyword::ExclusiveMaximum
        | BuiltinKeyword::MultipleOf
        | BuiltinKeyword::MinLength
        | BuiltinKeyword::MaxLength
        | BuiltinKeyword::MinItems
        | BuiltinKeyword::MaxItems
        | BuiltinKeyword::MinProperties
        | BuiltinKeyword::MaxProperties
        | BuiltinKeyword::DependentRequired
        | BuiltinKeyword::UniqueItems => Ok(ends(alloc, Ending::Nothing)),
        BuiltinKeyword::Required
        | BuiltinKeyword::Pattern
        | BuiltinKeyword::Properties
        | BuiltinKeyword::PropertyNames
        | BuiltinKeyword::Items
        | BuiltinKeyword::PrefixItems
        | BuiltinKeyword::AllOf
        | BuiltinKeyword::AnyOf
        | BuiltinKeyword::OneOf
        | BuiltinKeyword::Not
        | BuiltinKeyword::If => Ok(ends(alloc, Ending::Nothing)),
        BuiltinKeyword::AdditionalItems
        | BuiltinKeyword::Contains
        | BuiltinKeyword::Dependencies
        | BuiltinKeyword::DependentSchemas => Ok(ends(alloc, Ending::Nothing)),
        BuiltinKeyword::Format
        | BuiltinKeyword::ContentEncoding
        | BuiltinKeyword::ContentMediaType
        | BuiltinKeyword::ContentSchema => Ok(ends(alloc, Ending::Nothing)),
        BuiltinKeyword::UnevaluatedProperties
        | BuiltinKeyword::UnevaluatedItems
        | BuiltinKeyword::Ref
        | BuiltinKeyword::RecursiveRef
        | BuiltinKeyword::DynamicRef => Ok(ends(alloc, Ending::Nothing)),
    }
}

/// Returns the maker of an object's member.
///
/// It makes nothing if the member is missing.
fn member_maker(
    alloc: Global,
    keyword: BuiltinKeyword,
    object: &Map<String, Value>,
) -> Result<Maker, OutOfMemory>
    ensures maker { Follows result (script_of_member object.now keyword) }
{
    match value_in(object, keyword.as_str()) {
        Some(value) => value_maker(alloc, keyword, value, object),
        None => Ok(ends(alloc, Ending::Nothing)),
    }
}

/// A table of `patternProperties` and `additionalProperties`, in each draft.
///
/// `additionalProperties` reads `properties` and `patternProperties` beside it. A value of
/// `patternProperties` that is no object is refused. The table owns no name.
#[derive(Drop)]
pub struct GatedTable {}

impl KeywordTable<GatedKeyword> for GatedTable {
    ghost use Rattle.std.specs.Prelude.{false};
    ghost use Rattle.standard_pattern_properties.specs.Making.{gated_script, makes_rightly};

    type Maker = Maker;

    ghost owned = { λ t name. false };

    ghost script = { λ t. gated_script };

    ghost waiting = { waiting_of (λ k. k) };

    fn owns(&self, _name: &str) -> bool {
        false
    }

    fn begin(
        &self,
        alloc: Global,
        origin: KeywordOrigin<'_>,
        object: &Map<String, Value>,
        _draft: Draft,
        _vocabularies: &VocabularySet,
        _formats: bool,
    ) -> Result<Maker, OutOfMemory> {
        match origin {
            KeywordOrigin::Own(_) => Ok(ends(alloc, Ending::Nothing)),
            KeywordOrigin::Builtin(entry) => member_maker(alloc, entry.keyword, object),
        }
    }

    fn turn(
        &self,
        alloc: Global,
        maker: &mut Maker,
        reply: MakerReply,
    ) -> Result<MakerStep<GatedKeyword>, OutOfMemory> {
        maker.turn(alloc, reply)
    }

    ghost right = { λ t. makes_rightly };
}
