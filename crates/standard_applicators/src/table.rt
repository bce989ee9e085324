//! The table of the keywords.
ghost use Rattle.serde_json.specs.View.{view};
ghost use Rattle.keyword_makers.specs.MakerViews.{waiting_of};
ghost use Rattle.standard_applicators.specs.MakerWords.{Follows, script_of_contains, script_of_items, script_of_member, script_of_others};
ghost use Rattle.standard_applicators.specs.MakerWords.{script_of_value};
ghost use Rattle.standard_applicators.specs.Makers.{after_listed, dependencies_script, dependent_schemas_script};

use crate::applicator::StandardApplicator;
use crate::beside::{is_false, is_older_list, items_before, listed_beside};
use crate::dependency_values::{are_lists_of_texts, schema_names, wants_of};
use crate::limits::{contains_in, refused_limit};
use crate::names::Names;
use crate::unexpected::NoLaterItems;
use crate::wants::Wants;
use keyword_authoring::Planned;
use keyword_makers::{
    Ending, PathsMaker, asks_for, each_schema, ends, list_length, malformed, names_of, only_child,
    value_in, values_below,
};
use schema_drafts::{BuiltinKeyword, Draft, VocabularySet};
use schema_reports::OutOfMemory;
use schema_traits::{KeywordOrigin, KeywordTable, MakerReply, MakerStep};
use serde_json::{Map, Value};
use std::alloc::Global;

/// A table of these keywords, in each draft that has them.
///
/// The table owns no name, and makes nothing of any other name. If a value does not have the form
/// that its keyword needs, it is refused; the error shows the value and is located at the keyword.
/// The same holds of the values of `minContains` and `maxContains`, which `contains` reads.
#[derive(Drop)]
pub struct StandardApplicatorTable {}

/// The maker of these keywords.
type Maker = PathsMaker<StandardApplicator>;

/// Returns the maker of `contains`.
fn contains_maker(
    alloc: Global,
    name: &str,
    object: &Map<String, Value>,
    draft: Draft,
) -> Result<Maker, OutOfMemory>
    ensures maker { Follows result (script_of_contains draft object.now name.now) }
{
    if let Some(value) = refused_limit(draft, "minContains", object) {
        return malformed(alloc, "minContains", value);
    }
    if let Some(value) = refused_limit(draft, "maxContains", object) {
        return malformed(alloc, "maxContains", value);
    }
    let keyword = contains_in(draft, object);
    only_child(
        alloc,
        name,
        StandardApplicator::Contains(Planned { keyword }),
    )
}

/// Returns the maker of `dependentSchemas`.
fn dependent_schemas_maker(alloc: Global, name: &str, value: &Value) -> Result<Maker, OutOfMemory>
    ensures maker { Follows result (dependent_schemas_script name.now (view value.now)) }
{
    match value.as_object() {
        Some(members) => {
            let names = names_of(alloc, members)?;
            let paths = values_below(alloc, name, names.as_slice())?;
            let keyword = StandardApplicator::DependentSchemas(Names::new(names));
            Ok(asks_for(paths, keyword))
        }
        None => malformed(alloc, name, value),
    }
}

/// Returns the maker of `dependencies`.
fn dependencies_maker(alloc: Global, name: &str, value: &Value) -> Result<Maker, OutOfMemory>
    ensures maker { Follows result (dependencies_script name.now (view value.now)) }
{
    match value.as_object() {
        Some(members) if are_lists_of_texts(members) => {
            let wants = Wants::new(wants_of(alloc, members)?);
            let names = schema_names(alloc, members)?;
            let paths = values_below(alloc, name, names.as_slice())?;
            let keyword = StandardApplicator::Dependencies(wants, Names::new(names));
            Ok(asks_for(paths, keyword))
        }
        _ => malformed(alloc, name, value),
    }
}

/// Returns the maker of `items`.
fn items_maker(
    alloc: Global,
    name: &str,
    value: &Value,
    object: &Map<String, Value>,
    draft: Draft,
) -> Result<Maker, OutOfMemory>
    ensures maker { Follows result (script_of_items draft object.now name.now value.now) }
{
    if is_older_list(draft, value) {
        let keyword = StandardApplicator::ListedItems(list_length(value));
        return each_schema(alloc, name, value, keyword);
    }
    let before = items_before(draft, object);
    only_child(alloc, name, StandardApplicator::LaterItems(before))
}

/// Returns the maker of `additionalItems` beside a list of schemas.
///
/// Without such a list it makes nothing.
fn after_listed(
    alloc: Global,
    listed: Option<usize>,
    name: &str,
    value: &Value,
) -> Result<Maker, OutOfMemory>
    ensures maker { Follows result (after_listed listed name.now (view value.now)) }
{
    match listed {
        None => Ok(ends(alloc, Ending::Nothing)),
        Some(before) => {
            if is_false(value) {
                let keyword = StandardApplicator::NoLaterItems(NoLaterItems { before });
                Ok(ends(alloc, Ending::Keyword(keyword)))
            } else {
                only_child(alloc, name, StandardApplicator::LaterItems(before))
            }
        }
    }
}

/// Returns the maker of `additionalItems`.
fn additional_items_maker(
    alloc: Global,
    name: &str,
    value: &Value,
    object: &Map<String, Value>,
    draft: Draft,
) -> Result<Maker, OutOfMemory>
    ensures maker { Follows result (script_of_others draft object.now name.now value.now) }
{
    after_listed(alloc, listed_beside(draft, object), name, value)
}

/// Returns the maker of a keyword with this value.
fn value_maker(
    alloc: Global,
    keyword: BuiltinKeyword,
    value: &Value,
    object: &Map<String, Value>,
    draft: Draft,
) -> Result<Maker, OutOfMemory>
    ensures maker { Follows result (script_of_value draft object.now keyword value.now) }
{
    let name = keyword.as_str();
    match keyword {
        BuiltinKeyword::Contains => contains_maker(alloc, name, object, draft),
        BuiltinKeyword::DependentSchemas => dependent_schemas_maker(alloc, name, value),
        BuiltinKeyword::Dependencies => dependencies_maker(alloc, name, value),
        BuiltinKeyword::Items => items_maker(alloc, name, value, object, draft),
        BuiltinKeyword::AdditionalItems => {
            additional_items_maker(alloc, name, value, object, draft)
        }
        // Other tables make these, or none does.
        BuiltinKeyword::TypeKeyword
        | BuiltinKeyword::Const
        | BuiltinKeyword::Enum
        | BuiltinKeyword::Minimum
        | BuiltinKeyword::Maximum
        | BuiltinKeyword::ExclusiveMinimum
        | BuiltinKeyword::ExclusiveMaximum
        | BuiltinKeyword::MultipleOf
        | BuiltinKeyword::MinLength
        | BuiltinKeyword::MaxLength
        | BuiltinKeyword::MinItems
        | BuiltinKeyword::MaxItems
        | BuiltinKeyword::MinProperties
        | BuiltinKeyword::MaxProperties
        | BuiltinKeyword::DependentRequired
        | BuiltinKeyword::UniqueItems => Ok(ends(alloc, Ending::Nothing)),
        BuiltinKeyword::Required
        | BuiltinKeyword::Pattern
        | BuiltinKeyword::Properties
        | BuiltinKeyword::PropertyNames
        | BuiltinKeyword::PrefixItems
        | BuiltinKeyword::AllOf
        | BuiltinKeyword::AnyOf
        | BuiltinKeyword::OneOf
        | BuiltinKeyword::Not
        | BuiltinKeyword::If => Ok(ends(alloc, Ending::Nothing)),
        BuiltinKeyword::PatternProperties | BuiltinKeyword::AdditionalProperties => Ok(ends(
            alloc,
            Ending::Nothing,
        )),
        BuiltinKeyword::Format
        | BuiltinKeyword::ContentEncoding
        | BuiltinKeyword::ContentMediaType
        | BuiltinKeyword::ContentSchema => Ok(ends(alloc, Ending::Nothing)),
        BuiltinKeyword::UnevaluatedProperties
        | BuiltinKeyword::UnevaluatedItems
        | BuiltinKeyword::Ref
        | BuiltinKeyword::RecursiveRef
        | BuiltinKeyword::DynamicRef => Ok(ends(alloc, Ending::Nothing)),
    }
}

/// Returns the maker of an object's member.
///
/// It makes nothing if the member is missing.
fn member_maker(
    alloc: Global,
    keyword: BuiltinKeyword,
    object: &Map<String, Value>,
    draft: Draft,
) -> Result<Maker, OutOfMemory>
    ensures maker { Follows result (script_of_member draft object.now keyword) }
{
    match value_in(object, keyword.as_str()) {
        Some(value) => value_maker(alloc, keyword, value, object, draft),
        None => Ok(ends(alloc, Ending::Nothing)),
    }
}

impl KeywordTable<StandardApplicator> for StandardApplicatorTable {
    ghost use Rattle.std.specs.Prelude.{false};
    ghost use Rattle.standard_applicators.specs.Makers.{standard_script};
    ghost use Rattle.standard_applicators.specs.MakerLaws.{makes_rightly};

    type Maker = Maker;

    ghost owned = { λ _ name. false };

    ghost script = { λ _. standard_script };

    ghost waiting = { waiting_of (λ k. k) };

    fn owns(&self, _name: &str) -> bool {
        false
    }

    fn begin(
        &self,
        alloc: Global,
        origin: KeywordOrigin<'_>,
        object: &Map<String, Value>,
        draft: Draft,
        _vocabularies: &VocabularySet,
        _formats: bool,
    ) -> Result<Maker, OutOfMemory> {
        match origin {
            KeywordOrigin::Own(_) => Ok(ends(alloc, Ending::Nothing)),
            KeywordOrigin::Builtin(entry) => member_maker(alloc, entry.keyword, object, draft),
        }
    }

    fn turn(
        &self,
        alloc: Global,
        maker: &mut Maker,
        reply: MakerReply,
    ) -> Result<MakerStep<StandardApplicator>, OutOfMemory> {
        maker.turn(alloc, reply)
    }

    ghost right = { λ _. makes_rightly };
}
