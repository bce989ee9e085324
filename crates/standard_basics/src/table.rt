//! The table of the basic keywords.
ghost use Rattle.serde_json.specs.View.{view};
ghost use Rattle.keyword_makers.specs.MakerViews.{waiting_of};
ghost use Rattle.keyword_makers.specs.Making.{makes_if};
ghost use Rattle.standard_basics.specs.MakerWords.{Follows, script_of_if, script_of_items, script_of_member, script_of_value};
ghost use Rattle.standard_basics.specs.Makers.{count_shape, properties_script};
ghost use Rattle.standard_basics.specs.Shapes.{shape_of};

pub mod keyword_values;
pub mod schema_values;

use crate::counts::CountKind;
use crate::keyword::BasicKeyword;
use crate::table::keyword_values::{
    count_keyword, pattern_keyword, required_keyword, type_keyword,
};
use crate::table::schema_values::{is_older_list, items_before};
use keyword_makers::{
    Ending, PathsMaker, asks_for, branches_of, each_schema, ends, list_length, makes_if, malformed,
    only_child, value_in, values_of,
};
use schema_drafts::{BuiltinKeyword, Draft, VocabularySet};
use schema_reports::OutOfMemory;
use schema_traits::{AscendingNames, KeywordOrigin, KeywordTable, MakerReply, MakerStep};
use serde_json::{Map, Value};
use std::alloc::Global;

/// A table of some built-in keywords. No name is its own.
///
/// A value of the wrong kind is refused. The error shows the value, and its location is the
/// keyword's.
#[derive(Drop)]
pub struct BasicTable {}

#[tactic(auto, using(crate::proofs::MemberNames::names_are))]
fn properties_maker(
    alloc: Global,
    name: &str,
    value: &Value,
) -> Result<PathsMaker<BasicKeyword>, OutOfMemory>
    ensures maker { Follows result (properties_script name.now (view value.now)) }
{
    match value.as_object() {
        Some(members) => {
            let names = AscendingNames::of_members(alloc, members)?;
            let paths = values_of(alloc, name, names.as_slice())?;
            Ok(asks_for(paths, BasicKeyword::Properties(names)))
        }
        None => malformed(alloc, name, value),
    }
}

/// Before 2020-12 a list makes no keyword.
fn items_maker(
    alloc: Global,
    name: &str,
    value: &Value,
    object: &Map<String, Value>,
    draft: Draft,
) -> Result<PathsMaker<BasicKeyword>, OutOfMemory>
    ensures maker { Follows result (script_of_items draft object.now name.now value.now) }
{
    if is_older_list(draft, value) {
        return Ok(ends(alloc, Ending::Nothing));
    }
    let before = items_before(draft, object);
    only_child(alloc, name, BasicKeyword::Items(before))
}

/// Returns the maker of a keyword that counts.
fn count_maker(
    alloc: Global,
    kind: CountKind,
    name: &str,
    value: &Value,
) -> Result<PathsMaker<BasicKeyword>, OutOfMemory>
    ensures maker { Follows result (makes_if name.now (view value.now) (count_shape kind (view value.now))) }
{
    makes_if(alloc, name, value, count_keyword(kind, value))
}

/// Returns the maker of `if`.
fn if_maker(
    alloc: Global,
    name: &str,
    object: &Map<String, Value>,
) -> Result<PathsMaker<BasicKeyword>, OutOfMemory>
    ensures maker { Follows result (script_of_if object.now name.now) }
{
    let branches = branches_of(alloc, name, object)?;
    let keyword = BasicKeyword::If(branches.accepted, branches.refused);
    Ok(asks_for(branches.paths, keyword))
}

/// Returns the maker of a keyword with this value.
fn value_maker(
    alloc: Global,
    keyword: BuiltinKeyword,
    value: &Value,
    object: &Map<String, Value>,
    draft: Draft,
) -> Result<PathsMaker<BasicKeyword>, OutOfMemory>
    ensures maker { Follows result (script_of_value draft object.now keyword value.now) }
{
    let name = keyword.as_str();
    match keyword {
        BuiltinKeyword::TypeKeyword => {
            let made = type_keyword(alloc, value)?;
            makes_if(alloc, name, value, made)
        }
        BuiltinKeyword::Required => {
            let made = required_keyword(alloc, value)?;
            makes_if(alloc, name, value, made)
        }
        BuiltinKeyword::Pattern => {
            let made = pattern_keyword(alloc, value)?;
            makes_if(alloc, name, value, made)
        }
        BuiltinKeyword::MinLength => count_maker(alloc, CountKind::MinLength, name, value),
        BuiltinKeyword::MaxLength => count_maker(alloc, CountKind::MaxLength, name, value),
        BuiltinKeyword::MinProperties => {
            count_maker(alloc, CountKind::MinProperties, name, value)
        }
        BuiltinKeyword::Properties => properties_maker(alloc, name, value),
        BuiltinKeyword::PropertyNames => only_child(alloc, name, BasicKeyword::PropertyNames),
        BuiltinKeyword::Items => items_maker(alloc, name, value, object, draft),
        BuiltinKeyword::PrefixItems => {
            let keyword = BasicKeyword::PrefixItems(list_length(value));
            each_schema(alloc, name, value, keyword)
        }
        BuiltinKeyword::AllOf => {
            each_schema(alloc, name, value, BasicKeyword::AllOf(list_length(value)))
        }
        BuiltinKeyword::AnyOf => {
            each_schema(alloc, name, value, BasicKeyword::AnyOf(list_length(value)))
        }
        BuiltinKeyword::OneOf => {
            each_schema(alloc, name, value, BasicKeyword::OneOf(list_length(value)))
        }
        BuiltinKeyword::Not => only_child(alloc, name, BasicKeyword::Not(value.clone()?)),
        BuiltinKeyword::If => if_maker(alloc, name, object),
        // Other tables make these, or none does.
        BuiltinKeyword::Const
        | BuiltinKeyword::Enum
        | BuiltinKeyword::Minimum
        | BuiltinKeyword::Maximum
        | BuiltinKeyword::ExclusiveMinimum
        | BuiltinKeyword::ExclusiveMaximum
        | BuiltinKeyword::MultipleOf
        | BuiltinKeyword::MinItems
        | BuiltinKeyword::MaxItems
        | BuiltinKeyword::MaxProperties
        | BuiltinKeyword::DependentRequired
        | BuiltinKeyword::UniqueItems => Ok(ends(alloc, Ending::Nothing)),
        BuiltinKeyword::PatternProperties | BuiltinKeyword::AdditionalProperties => Ok(ends(
            alloc,
            Ending::Nothing,
        )),
        BuiltinKeyword::AdditionalItems
        | BuiltinKeyword::Contains
        | BuiltinKeyword::Dependencies
        | BuiltinKeyword::DependentSchemas => Ok(ends(alloc, Ending::Nothing)),
        BuiltinKeyword::Format
        | BuiltinKeyword::ContentEncoding
        | BuiltinKeyword::ContentMediaType
        | BuiltinKeyword::ContentSchema => Ok(ends(alloc, Ending::Nothing)),
        BuiltinKeyword::UnevaluatedProperties
        | BuiltinKeyword::UnevaluatedItems
        | BuiltinKeyword::Ref
        | BuiltinKeyword::RecursiveRef
        | BuiltinKeyword::DynamicRef => Ok(ends(alloc, Ending::Nothing)),
    }
}

/// Returns the maker of an object's member.
///
/// It makes nothing if the member is missing.
fn member_maker(
    alloc: Global,
    keyword: BuiltinKeyword,
    object: &Map<String, Value>,
    draft: Draft,
) -> Result<PathsMaker<BasicKeyword>, OutOfMemory>
    ensures maker { Follows result (script_of_member draft object.now keyword) }
{
    match value_in(object, keyword.as_str()) {
        Some(value) => value_maker(alloc, keyword, value, object, draft),
        None => Ok(ends(alloc, Ending::Nothing)),
    }
}

impl KeywordTable<BasicKeyword> for BasicTable {
    ghost use Rattle.std.specs.Prelude.{false};
    ghost use Rattle.standard_basics.specs.Makers.{basic_script};
    ghost use Rattle.standard_basics.specs.MakerLaws.{makes_rightly};

    type Maker = PathsMaker<BasicKeyword>;

    ghost owned = { λ _ name. false };

    ghost script = { λ _. basic_script };

    ghost waiting = { waiting_of shape_of };

    fn owns(&self, _name: &str) -> bool {
        false
    }

    fn begin(
        &self,
        alloc: Global,
        origin: KeywordOrigin<'_>,
        object: &Map<String, Value>,
        draft: Draft,
        _vocabularies: &VocabularySet,
        _formats: bool,
    ) -> Result<PathsMaker<BasicKeyword>, OutOfMemory> {
        match origin {
            KeywordOrigin::Own(_) => Ok(ends(alloc, Ending::Nothing)),
            KeywordOrigin::Builtin(entry) => member_maker(alloc, entry.keyword, object, draft),
        }
    }

    fn turn(
        &self,
        alloc: Global,
        maker: &mut PathsMaker<BasicKeyword>,
        reply: MakerReply,
    ) -> Result<MakerStep<BasicKeyword>, OutOfMemory> {
        maker.turn(alloc, reply)
    }

    ghost right = { λ _. makes_rightly };
}
