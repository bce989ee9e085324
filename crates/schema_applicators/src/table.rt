//! The table of the keywords.
ghost use Rattle.keyword_makers.specs.MakerViews.{waiting_of};
ghost use Rattle.schema_applicators.specs.Shapes.{shape_of};
ghost use Rattle.schema_applicators.specs.MakerWords.{Follows, script_of_member, script_of_value};

use crate::applicator::Applicator;
use keyword_makers::{
    Ending, PathsMaker, asks_for, branches_of, each_schema, ends, list_length, only_child, value_in,
};
use schema_drafts::{BuiltinKeyword, Draft, VocabularySet};
use schema_reports::OutOfMemory;
use schema_traits::{KeywordOrigin, KeywordTable, MakerReply, MakerStep};
use serde_json::{Map, Value};
use std::alloc::Global;

/// A table of `allOf`, `anyOf`, `oneOf`, `not` and `if`.
///
/// It covers each draft in which they are built in.
///
/// The table owns no name, and makes nothing of any other name. If a value does not have the form
/// that its keyword needs, it is refused; the error shows the value and is located at the keyword.
#[derive(Drop)]
pub struct ApplicatorTable {}

/// Returns the maker of a keyword with this value.
fn value_maker(
    alloc: Global,
    keyword: BuiltinKeyword,
    value: &Value,
    object: &Map<String, Value>,
) -> Result<PathsMaker<Applicator>, OutOfMemory>
    ensures maker { Follows result (script_of_value object.now keyword value.now) }
{
    let name = keyword.as_str();
    match keyword {
        BuiltinKeyword::AllOf => {
            each_schema(alloc, name, value, Applicator::AllOf(list_length(value)))
        }
        BuiltinKeyword::AnyOf => {
            each_schema(alloc, name, value, Applicator::AnyOf(list_length(value)))
        }
        BuiltinKeyword::OneOf => {
            each_schema(alloc, name, value, Applicator::OneOf(list_length(value)))
        }
        BuiltinKeyword::Not => only_child(alloc, name, Applicator::Not(value.clone()?)),
        BuiltinKeyword::If => {
            let branches = branches_of(alloc, name, object)?;
            let keyword = Applicator::If(branches.accepted, branches.refused);
            Ok(asks_for(branches.paths, keyword))
        }
        // Other tables make these, or none does.
        BuiltinKeyword::TypeKeyword
        | BuiltinKeyword::Const
        | BuiltinKeyword::Enum
        | BuiltinKeyword::Minimum
        | BuiltinKeyword::Maximum
        | BuiltinKeyword::ExclusiveMinimum
        | BuiltinKeyword::ExclusiveMaximum
        | BuiltinKeyword::MultipleOf
        | BuiltinKeyword::MinLength
        | BuiltinKeyword::MaxLength
        | BuiltinKeyword::MinItems
        | BuiltinKeyword::MaxItems
        | BuiltinKeyword::MinProperties
        | BuiltinKeyword::MaxProperties
        | BuiltinKeyword::DependentRequired
        | BuiltinKeyword::UniqueItems => Ok(ends(alloc, Ending::Nothing)),
        BuiltinKeyword::Required
        | BuiltinKeyword::Pattern
        | BuiltinKeyword::Properties
        | BuiltinKeyword::PropertyNames
        | BuiltinKeyword::Items
        | BuiltinKeyword::PrefixItems => Ok(ends(alloc, Ending::Nothing)),
        BuiltinKeyword::PatternProperties | BuiltinKeyword::AdditionalProperties => Ok(ends(
            alloc,
            Ending::Nothing,
        )),
        BuiltinKeyword::AdditionalItems
        | BuiltinKeyword::Contains
        | BuiltinKeyword::Dependencies
        | BuiltinKeyword::DependentSchemas => Ok(ends(alloc, Ending::Nothing)),
        BuiltinKeyword::Format
        | BuiltinKeyword::ContentEncoding
        | BuiltinKeyword::ContentMediaType
        | BuiltinKeyword::ContentSchema => Ok(ends(alloc, Ending::Nothing)),
        BuiltinKeyword::UnevaluatedProperties
        | BuiltinKeyword::UnevaluatedItems
        | BuiltinKeyword::Ref
        | BuiltinKeyword::RecursiveRef
        | BuiltinKeyword::DynamicRef => Ok(ends(alloc, Ending::Nothing)),
    }
}

/// Returns the maker of an object's member.
///
/// It makes nothing if the member is missing.
fn member_maker(
    alloc: Global,
    keyword: BuiltinKeyword,
    object: &Map<String, Value>,
) -> Result<PathsMaker<Applicator>, OutOfMemory>
    ensures maker { Follows result (script_of_member object.now keyword) }
{
    match value_in(object, keyword.as_str()) {
        Some(value) => value_maker(alloc, keyword, value, object),
        None => Ok(ends(alloc, Ending::Nothing)),
    }
}

impl KeywordTable<Applicator> for ApplicatorTable {
    ghost use Rattle.std.specs.Prelude.{false};
    ghost use Rattle.schema_applicators.specs.Makers.{applicator_script};
    ghost use Rattle.schema_applicators.specs.MakerLaws.{makes_rightly};

    type Maker = PathsMaker<Applicator>;

    ghost owned = { λ _ name. false };

    ghost script = { λ _. applicator_script };

    ghost waiting = { waiting_of shape_of };

    fn owns(&self, _name: &str) -> bool {
        false
    }

    fn begin(
        &self,
        alloc: Global,
        origin: KeywordOrigin<'_>,
        object: &Map<String, Value>,
        _draft: Draft,
        _vocabularies: &VocabularySet,
        _formats: bool,
    ) -> Result<PathsMaker<Applicator>, OutOfMemory> {
        match origin {
            KeywordOrigin::Own(_) => Ok(ends(alloc, Ending::Nothing)),
            KeywordOrigin::Builtin(entry) => member_maker(alloc, entry.keyword, object),
        }
    }

    fn turn(
        &self,
        alloc: Global,
        maker: &mut PathsMaker<Applicator>,
        reply: MakerReply,
    ) -> Result<MakerStep<Applicator>, OutOfMemory> {
        maker.turn(alloc, reply)
    }

    ghost right = { λ _. makes_rightly };
}
