//! The table that makes the assertions.
ghost use Rattle.std.specs.Prelude.{◌≡◌};
ghost use Rattle.serde_json.specs.Find.{as_bool, get_member};
ghost use Rattle.serde_json.specs.View.{view};
ghost use Rattle.schema_drafts.specs.KeywordViews.{draft_of};
ghost use Rattle.keyword_makers.specs.ByObject.{formed};
ghost use Rattle.schema_traits.specs.Showing.{Shows};
ghost use Rattle.standard_assertions.specs.Made.{excludes, here_if, limit_here, unique_made};
ghost use Rattle.standard_assertions.specs.MakerWords.{FollowsMember, made_of_value};
ghost use Rattle.standard_assertions.specs.Shapes.{shape_of};
ghost use Rattle.schema_traits.specs.Readings.{fields};

use crate::assertion::Assertion;
use crate::limits::LimitKind;
use crate::sizes::SizeKind;
use crate::values::{
    count_made, dependents_made, enum_made, integers_of, is_draft_4, limit_made, multiple_made,
    size_made, type_made,
};
use json_values::HeldValue;
use keyword_authoring::Telling;
use keyword_makers::{Children, Ending, ObjectKeyword, PathsMaker, ends, maker_of, value_in};
use schema_drafts::{BuiltinKeyword, Draft, VocabularySet};
use schema_reports::OutOfMemory;
use schema_traits::{KeywordOrigin, KeywordTable, MakerReply, MakerStep};
use serde_json::{Map, Value};
use standard_basics::CountKind;
use std::alloc::Global;

/// The keyword that a member of an object makes.
type Made = ObjectKeyword<Telling<Assertion>>;

/// The maker of these keywords.
type Maker = PathsMaker<Telling<Assertion>>;

/// Returns a keyword without children, or a refusal of its value.
fn here_if(found: Option<Assertion>) -> Made
    ensures here { formed shape_of result ≡ here_if found }
{
    match found {
        Some(keyword) => ObjectKeyword::Keyword(Telling { keyword }, Children::Childless),
        None => ObjectKeyword::Malformed,
    }
}

/// Returns whether the truth value beside draft 4's limit excludes the limit.
///
/// A missing value does not exclude it. Returns `None` for a value that is no truth value.
fn excludes(object: &Map<String, Value>, beside: &str) -> Option<bool>
    ensures excludes { result ≡ excludes (get_member beside.now (fields object.now)) }
{
    match value_in(object, beside) {
        Some(value) => value.as_bool(),
        None => Some(false),
    }
}

/// Makes `minimum` or `maximum`.
///
/// In draft 4 the keyword depends on the member named `beside`.
fn limit_here(
    including: LimitKind,
    excluding: LimitKind,
    beside: &'static str,
    draft: Draft,
    object: &Map<String, Value>,
    value: &Value,
) -> Made
    ensures made { formed shape_of result ≡ limit_here including excluding beside.now (draft_of draft) (fields object.now)
        (view value.now) }
{
    if !is_draft_4(draft) {
        return here_if(limit_made(including, value));
    }
    match excludes(object, beside) {
        None => ObjectKeyword::MalformedBeside(beside),
        Some(true) => here_if(limit_made(excluding, value)),
        Some(false) => here_if(limit_made(including, value)),
    }
}

/// Makes `uniqueItems`.
fn unique_made(value: &Value) -> Made
    ensures made { formed shape_of result ≡ unique_made (as_bool (view value.now)) }
{
    match value.as_bool() {
        None => ObjectKeyword::Malformed,
        Some(true) => here_if(Some(Assertion::UniqueItems)),
        Some(false) => ObjectKeyword::Nothing,
    }
}

/// Makes the keyword of a member with this value.
fn keyword_made(
    alloc: Global,
    keyword: BuiltinKeyword,
    value: &Value,
    object: &Map<String, Value>,
    draft: Draft,
) -> Result<Made, OutOfMemory>
    ensures made { Shows (formed shape_of) result (made_of_value draft object.now keyword value.now) }
{
    match keyword {
        BuiltinKeyword::TypeKeyword => Ok(here_if(type_made(alloc, integers_of(draft), value)?)),
        BuiltinKeyword::Const => {
            let constant = HeldValue::of(alloc, value)?;
            Ok(here_if(Some(Assertion::Const(constant))))
        }
        BuiltinKeyword::Enum => Ok(here_if(enum_made(alloc, value)?)),
        BuiltinKeyword::Minimum => {
            let (including, excluding) = (LimitKind::Minimum, LimitKind::MinimumExcluded);
            Ok(limit_here(
                including,
                excluding,
                "exclusiveMinimum",
                draft,
                object,
                value,
            ))
        }
        BuiltinKeyword::Maximum => {
            let (including, excluding) = (LimitKind::Maximum, LimitKind::MaximumExcluded);
            Ok(limit_here(
                including,
                excluding,
                "exclusiveMaximum",
                draft,
                object,
                value,
            ))
        }
        BuiltinKeyword::ExclusiveMinimum => {
            Ok(here_if(limit_made(LimitKind::ExclusiveMinimum, value)))
        }
        BuiltinKeyword::ExclusiveMaximum => {
            Ok(here_if(limit_made(LimitKind::ExclusiveMaximum, value)))
        }
        BuiltinKeyword::MultipleOf => Ok(here_if(multiple_made(value))),
        BuiltinKeyword::MinItems => Ok(here_if(size_made(SizeKind::MinItems, draft, value))),
        BuiltinKeyword::MaxItems => Ok(here_if(size_made(SizeKind::MaxItems, draft, value))),
        BuiltinKeyword::UniqueItems => Ok(unique_made(value)),
        BuiltinKeyword::MaxProperties => {
            Ok(here_if(size_made(SizeKind::MaxProperties, draft, value)))
        }
        BuiltinKeyword::DependentRequired => Ok(here_if(dependents_made(alloc, value)?)),
        BuiltinKeyword::MinLength => Ok(here_if(count_made(CountKind::MinLength, draft, value))),
        BuiltinKeyword::MaxLength => Ok(here_if(count_made(CountKind::MaxLength, draft, value))),
        BuiltinKeyword::MinProperties => {
            Ok(here_if(count_made(CountKind::MinProperties, draft, value)))
        }
        // Other tables make these, or none does.
        BuiltinKeyword::Required
        | BuiltinKeyword::Pattern
        | BuiltinKeyword::Properties
        | BuiltinKeyword::PropertyNames
        | BuiltinKeyword::Items
        | BuiltinKeyword::PrefixItems
        | BuiltinKeyword::AllOf
        | BuiltinKeyword::AnyOf
        | BuiltinKeyword::OneOf
        | BuiltinKeyword::Not
        | BuiltinKeyword::If => Ok(ObjectKeyword::Nothing),
        BuiltinKeyword::PatternProperties | BuiltinKeyword::AdditionalProperties => Ok(
            ObjectKeyword::Nothing,
        ),
        BuiltinKeyword::AdditionalItems
        | BuiltinKeyword::Contains
        | BuiltinKeyword::Dependencies
        | BuiltinKeyword::DependentSchemas => Ok(ObjectKeyword::Nothing),
        BuiltinKeyword::Format
        | BuiltinKeyword::ContentEncoding
        | BuiltinKeyword::ContentMediaType
        | BuiltinKeyword::ContentSchema => Ok(ObjectKeyword::Nothing),
        BuiltinKeyword::UnevaluatedProperties
        | BuiltinKeyword::UnevaluatedItems
        | BuiltinKeyword::Ref
        | BuiltinKeyword::RecursiveRef
        | BuiltinKeyword::DynamicRef => Ok(ObjectKeyword::Nothing),
    }
}

/// Returns the maker of an object's member.
///
/// It makes nothing if the member is missing.
fn member_maker(
    alloc: Global,
    keyword: BuiltinKeyword,
    object: &Map<String, Value>,
    draft: Draft,
) -> Result<Maker, OutOfMemory>
    ensures maker { FollowsMember result draft object.now keyword }
{
    let name = keyword.as_str();
    match value_in(object, name) {
        Some(value) => {
            let made = keyword_made(alloc, keyword, value, object, draft)?;
            maker_of(alloc, name, value, object, made)
        }
        None => Ok(ends(alloc, Ending::Nothing)),
    }
}

/// A table that makes each assertion from its value.
///
/// Draft 4's `minimum` and `maximum` depend on a member beside them too. A malformed value is
/// refused; the error shows the value and is located at the keyword. The table owns no name.
#[derive(Drop)]
pub struct AssertionTable {}

impl KeywordTable<Telling<Assertion>> for AssertionTable {
    ghost use Rattle.std.specs.Prelude.{false, refl};
    ghost use Rattle.keyword_makers.specs.MakerViews.{waiting_of};
    ghost use Rattle.standard_assertions.specs.Made.{assertion_script};
    ghost use Rattle.standard_assertions.specs.MadeLaws.{makes_rightly};

    type Maker = Maker;

    ghost owned = { λ _ name. false };

    ghost script = { λ _. assertion_script };

    ghost waiting = { waiting_of shape_of };

    fn owns(&self, _name: &str) -> bool {
        false
    }

    fn begin(
        &self,
        alloc: Global,
        origin: KeywordOrigin<'_>,
        object: &Map<String, Value>,
        draft: Draft,
        _vocabularies: &VocabularySet,
        _formats: bool,
    ) -> Result<Maker, OutOfMemory> {
        match origin {
            KeywordOrigin::Own(_) => Ok(ends(alloc, Ending::Nothing)),
            KeywordOrigin::Builtin(entry) => member_maker(alloc, entry.keyword, object, draft),
        }
    }

    fn turn(
        &self,
        alloc: Global,
        maker: &mut Maker,
        reply: MakerReply,
    ) -> Result<MakerStep<Telling<Assertion>>, OutOfMemory> {
        maker.turn(alloc, reply)
    }

    ghost right = { λ _. makes_rightly _ (λ k. refl) };
}
