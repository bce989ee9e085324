//! The keyword table.
ghost use Rattle.std.specs.Prelude.{◌≡◌, ◌∷◌, [], IfOk, Some, codes};
ghost use Rattle.serde_json.specs.View.{view};
ghost use Rattle.schema_drafts.specs.KeywordViews.{builtin_text, draft_of};
ghost use Rattle.schema_traits.specs.MakerViews as makers;
ghost use Rattle.keyword_makers.specs.MakerViews.{made_of, waiting_of, Begins};
ghost use Rattle.standard_basics.specs.Shapes.{shape_of};
ghost use Rattle.example_fused_keywords.specs.FusedMakers.{fused_waiting};
ghost use Rattle.example_fused_keywords.specs.FusedScripts.{fused_limit, is_known, least_in, limit_of, fused_script};
ghost use Rattle.example_fused_keywords.specs.FusedScripts.{made_among, plain_script, says_array, script_by};
ghost use Rattle.example_fused_keywords.specs.FusedScripts.{waiting_among};
ghost use Rattle.example_fused_keywords.specs.FusedShape.{of_bench};
ghost use Rattle.example_fused_keywords.specs.FusedShapes.{fused_shape};
ghost use Rattle.schema_traits.specs.Readings.{ListsTexts, fields, value_read};
ghost use Rattle.schema_traits.specs.Showing.{Shows};

use crate::array::ArrayKeyword;
use crate::keyword::FusedKeyword;
use keyword_makers::{
    Children, Ending, MakesByValue, MemberKeyword, PathsMaker, TableByValue, ends, value_in,
    value_of,
};
use schema_drafts::{BuiltinEntry, BuiltinKeyword, Draft, VocabularySet, builtin_row};
use schema_reports::OutOfMemory;
use schema_traits::{KeywordOrigin, KeywordTable, MakerReply, MakerStep};
use serde_json::{Map, Value};
use standard_basics::{BasicKeyword, BasicTable, items_before};
use std::alloc::Global;

/// The basic table, with `minItems` and the `items` that absorbs others.
///
/// `items` absorbs `minItems` and `type` if an object has the three, with "array" as `type` and one
/// schema as `items`. No name is the table's own.
#[derive(Drop)]
pub struct FusedTable {}

/// A maker of the table.
///
/// `Plain` requests paths. `AsksItems` and `HasItems` are the maker of the `items` that absorbs two
/// others, before and after it requests its schema. They hold the number of items before its own,
/// and the limit. `Over` has ended.
#[derive(Drop)]
pub enum FusedMaker {
    Plain(PathsMaker<FusedKeyword>),
    AsksItems(usize, u64),
    HasItems(usize, u64),
    Over,
}

/// The table that makes `minItems` from its value.
#[derive(Drop)]
struct LeastTable {}

impl MakesByValue<FusedKeyword> for LeastTable {
    ghost use Rattle.std.specs.Prelude.{false};
    ghost use Rattle.example_fused_keywords.specs.FusedMakerLaws.{least_rightly};
    ghost use Rattle.example_fused_keywords.specs.FusedScripts.{least_made};

    ghost owned = { λ t name. false };

    ghost made = { λ t. least_made };

    fn owns(&self, _name: &str) -> bool {
        false
    }

    fn make(
        &self,
        _alloc: Global,
        name: &str,
        value: &Value,
    ) -> Result<MemberKeyword<FusedKeyword>, OutOfMemory> {
        if name == "minItems" {
            let Some(limit) = value.as_u64() else {
                return Ok(MemberKeyword::Malformed);
            };
            let keyword = FusedKeyword::Array(ArrayKeyword::MinItems(limit));
            return Ok(MemberKeyword::Keyword(keyword, Children::Childless));
        }
        Ok(MemberKeyword::Nothing)
    }

    ghost right = { λ t. least_rightly };
}

/// Returns whether a value is the string "array".
fn says_array(value: &Value) -> bool
    ensures says { result ≡ says_array (view value.now) }
{
    match value {
        Value::String(text) => text.as_str() == "array",
        _ => false,
    }
}

/// Returns a value as a limit, if it can be one.
fn least_in(value: &Value) -> Option<u64>
    ensures least { result ≡ least_in (view value.now) }
{
    value.as_u64()
}

/// Returns the limit of the fused keyword, if the three values can be fused.
fn limit_of(type_value: Option<&Value>, items: Option<&Value>, least: Option<&Value>) -> Option<u64>
    ensures limit { result ≡ limit_of (value_read type_value.entry) (value_read items.entry) (value_read least.entry) }
{
    let type_value = type_value?;
    let items = items?;
    let least = least?;
    if says_array(type_value) && !items.is_array() {
        least_in(least)
    } else {
        None
    }
}

/// Returns whether the draft has this keyword, with its vocabulary in force.
fn is_known(draft: Draft, vocabularies: &VocabularySet, name: &str) -> bool
    ensures known { result ≡ is_known (draft_of draft) vocabularies.now name.now }
{
    builtin_row(draft, vocabularies, name).is_some()
}

/// Returns the limit of the fused keyword, if the object fuses the three.
fn fused_limit(
    object: &Map<String, Value>,
    draft: Draft,
    vocabularies: &VocabularySet,
) -> Option<u64>
    ensures limit { result ≡ fused_limit (draft_of draft) vocabularies.now (fields object.now) }
{
    let known = is_known(draft, vocabularies, "type")
        && is_known(draft, vocabularies, "minItems")
        && is_known(draft, vocabularies, "items");
    if known {
        limit_of(
            value_in(object, "type"),
            value_in(object, "items"),
            value_in(object, "minItems"),
        )
    } else {
        None
    }
}

fn ending_of(ending: Ending<BasicKeyword>) -> Ending<FusedKeyword>
    ensures ending { made_of fused_shape result ≡ made_among of_bench (made_of shape_of ending) }
{
    match ending {
        Ending::Keyword(keyword) => Ending::Keyword(FusedKeyword::Bench(keyword)),
        Ending::Nothing => Ending::Nothing,
        Ending::Refused(error) => Ending::Refused(error),
    }
}

/// Returns a maker of the basic table as one of this table.
#[tactic(auto, using(crate::specs::FusedMakerLaws::waits_among))]
fn among(maker: PathsMaker<BasicKeyword>) -> PathsMaker<FusedKeyword>
    ensures maker { waiting_of fused_shape result ≡ waiting_among of_bench (waiting_of shape_of maker) }
{
    let PathsMaker { paths, asked, ends } = maker;
    let ends = match ends {
        Some(ending) => Some(ending_of(ending)),
        None => None,
    };
    PathsMaker { paths, asked, ends }
}

/// Returns the maker of a member that nothing absorbs and that absorbs nothing.
#[tactic(auto, using(crate::proofs::OtherNames::not_least))]
fn plain_maker(
    alloc: Global,
    entry: BuiltinEntry,
    object: &Map<String, Value>,
    draft: Draft,
    vocabularies: &VocabularySet,
    formats: bool,
) -> Result<PathsMaker<FusedKeyword>, OutOfMemory>
    ensures maker { IfOk result (Begins fused_shape (plain_script (builtin_text entry.keyword) (fields object.now) (draft_of draft)
        vocabularies.now formats)) }
{
    let origin = KeywordOrigin::Builtin(entry);
    match entry.keyword {
        BuiltinKeyword::MinItems => {
            let table = TableByValue {
                keywords: LeastTable {},
            };
            table.begin(alloc, origin, object, draft, vocabularies, formats)
        }
        _ => {
            let table = BasicTable {};
            let maker = table.begin(alloc, origin, object, draft, vocabularies, formats)?;
            Ok(among(maker))
        }
    }
}

/// Returns the maker of a member of an object that fuses the three.
#[tactic(auto, using(crate::proofs::OtherNames::not_type, crate::proofs::OtherNames::not_least, crate::proofs::OtherNames::not_items))]
fn fused_maker(
    alloc: Global,
    least: u64,
    entry: BuiltinEntry,
    object: &Map<String, Value>,
    draft: Draft,
    vocabularies: &VocabularySet,
    formats: bool,
) -> Result<FusedMaker, OutOfMemory>
    ensures maker { Shows fused_waiting result (makers.begun (script_by (Some least) (builtin_text entry.keyword) (fields object.now)
        (draft_of draft) vocabularies.now formats)) }
{
    match entry.keyword {
        BuiltinKeyword::TypeKeyword | BuiltinKeyword::MinItems => {
            Ok(FusedMaker::Plain(ends(alloc, Ending::Nothing)))
        }
        BuiltinKeyword::Items => Ok(FusedMaker::AsksItems(items_before(draft, object), least)),
        _ => {
            let maker = plain_maker(alloc, entry, object, draft, vocabularies, formats)?;
            Ok(FusedMaker::Plain(maker))
        }
    }
}

fn member_maker(
    alloc: Global,
    entry: BuiltinEntry,
    object: &Map<String, Value>,
    draft: Draft,
    vocabularies: &VocabularySet,
    formats: bool,
) -> Result<FusedMaker, OutOfMemory>
    ensures maker { Shows fused_waiting result (makers.begun (script_by (fused_limit (draft_of draft) vocabularies.now
        (fields object.now)) (builtin_text entry.keyword) (fields object.now) (draft_of draft) vocabularies.now formats)) }
{
    match fused_limit(object, draft, vocabularies) {
        Some(least) => fused_maker(alloc, least, entry, object, draft, vocabularies, formats),
        None => {
            let maker = plain_maker(alloc, entry, object, draft, vocabularies, formats)?;
            Ok(FusedMaker::Plain(maker))
        }
    }
}

fn absorbed_names(alloc: Global) -> Result<Vec<String>, OutOfMemory>
    ensures names { ListsTexts result (codes "type" ∷ codes "minItems" ∷ []) }
{
    let mut names = Vec::new(alloc);
    names.push(String::from_str(alloc, "type")?)?;
    names.push(String::from_str(alloc, "minItems")?)?;
    Ok(names)
}

impl KeywordTable<FusedKeyword> for FusedTable {
    ghost use Rattle.std.specs.Prelude.{false};
    ghost use Rattle.example_fused_keywords.specs.FusedMakerLaws.{fused_makes_rightly};
    ghost use Rattle.example_fused_keywords.specs.FusedMakers.{fused_waiting};
    ghost use Rattle.example_fused_keywords.specs.FusedScripts.{fused_script};

    type Maker = FusedMaker;

    ghost owned = { λ _ name. false };

    ghost script = { λ _. fused_script };

    ghost waiting = { fused_waiting };

    fn owns(&self, _name: &str) -> bool {
        false
    }

    fn begin(
        &self,
        alloc: Global,
        origin: KeywordOrigin<'_>,
        object: &Map<String, Value>,
        draft: Draft,
        vocabularies: &VocabularySet,
        formats: bool,
    ) -> Result<FusedMaker, OutOfMemory> {
        match origin {
            KeywordOrigin::Own(_) => Ok(FusedMaker::Plain(ends(alloc, Ending::Nothing))),
            KeywordOrigin::Builtin(entry) => {
                member_maker(alloc, entry, object, draft, vocabularies, formats)
            }
        }
    }

    fn turn(
        &self,
        alloc: Global,
        maker: &mut FusedMaker,
        reply: MakerReply,
    ) -> Result<MakerStep<FusedKeyword>, OutOfMemory> {
        match maker {
            FusedMaker::Plain(paths) => paths.turn(alloc, reply),
            FusedMaker::AsksItems(before, least) => {
                let path = value_of(alloc, "items")?;
                *maker = FusedMaker::HasItems(*before, *least);
                Ok(MakerStep::Compile(path))
            }
            FusedMaker::HasItems(before, least) => {
                let keyword = FusedKeyword::Array(ArrayKeyword::ArrayShape(*before, *least));
                *maker = FusedMaker::Over;
                Ok(MakerStep::Keyword(keyword, absorbed_names(alloc)?))
            }
            FusedMaker::Over => Ok(MakerStep::Nothing),
        }
    }

    ghost right = { λ _. fused_makes_rightly };
}
