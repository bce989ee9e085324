//! The table of `x-items` and `type`.
//!
//! `type` is made as if its value were "array". The maker of `x-items` asks for the number that is
//! pending for items of its object, reserves one if there is none, and has its value compiled.
ghost use Rattle.std.specs.Prelude.{◌≡◌, ◌∷◌, [], IfOk};
ghost use Rattle.theory_definitions.specs.Instance.{to_member};
ghost use Rattle.schema_traits.specs.MakerViews.{maker_reply_of};
ghost use Rattle.test_laws.specs.ItemsTable.{AsksValue, Given, own_name};
ghost use Rattle.schema_traits.specs.Showing.{Yields};

use crate::items::{ItemsKeyword, ItemsPlan};
use keyword_authoring::Planned;
use schema_drafts::{BuiltinKeyword, Draft, VocabularySet};
use schema_reports::OutOfMemory;
use schema_traits::{
    KeywordOrigin, KeywordTable, MakerReply, MakerStep, PendingKind, PendingSchemaNode, SchemaPath,
    SchemaStep,
};
use serde_json::{Map, Value};
use std::alloc::Global;
use std::rc::RcStr;

/// The table.
#[derive(Drop)]
pub struct ItemsTable {}

/// The progress of a maker.
#[derive(Drop)]
pub enum ItemsMaker {
    Begins,
    WantsPending,
    WantsReserved,
    WantsChild(PendingSchemaNode),
    ArrayType,
    Nothing,
    Over,
}

fn value_path(alloc: Global) -> Result<SchemaPath, OutOfMemory>
    ensures path { Yields result (to_member own_name ∷ []) }
{
    let mut path = SchemaPath::root(alloc);
    path.push(SchemaStep::Member(RcStr::from_str(alloc, "x-items")?))?;
    Ok(path)
}

// Returns the number in a reply, if it has one.
fn given(reply: MakerReply) -> Option<PendingSchemaNode>
    ensures given { Given result (maker_reply_of reply) }
{
    match reply {
        MakerReply::Begun => None,
        MakerReply::Child(_) => None,
        MakerReply::Skipped => None,
        MakerReply::Pending(number) => number,
        MakerReply::Reserved(number) => Some(number),
    }
}

fn keyword(plan: ItemsPlan, number: Option<PendingSchemaNode>) -> ItemsKeyword
    ensures plan { result.planned.keyword ≡ plan }
{
    ItemsKeyword {
        planned: Planned { keyword: plan },
        number,
    }
}

impl ItemsMaker {
    // Requests the keyword's value, with the number that was given.
    fn ask_value(
        &mut self,
        alloc: Global,
        number: PendingSchemaNode,
    ) -> Result<MakerStep<ItemsKeyword>, OutOfMemory>
        ensures asks { IfOk result (λ step. AsksValue step self.new) }
    {
        let path = value_path(alloc)?;
        *self = ItemsMaker::WantsChild(number);
        Ok(MakerStep::Compile(path))
    }
}

impl KeywordTable<ItemsKeyword> for ItemsTable {
    ghost use Rattle.std.specs.Prelude.{bytes_eq};
    ghost use Rattle.test_laws.specs.ItemsTable.{items_right, items_script, own_name, waiting};

    type Maker = ItemsMaker;

    ghost owned = { λ t name. bytes_eq name own_name };

    ghost script = { λ t. items_script };

    ghost waiting = { waiting };

    fn owns(&self, name: &str) -> bool {
        name == "x-items"
    }

    #[tactic(auto, using(crate::proofs::OtherNames::not_type))]
    fn begin(
        &self,
        _alloc: Global,
        origin: KeywordOrigin<'_>,
        _object: &Map<String, Value>,
        _draft: Draft,
        _vocabularies: &VocabularySet,
        _formats: bool,
    ) -> Result<ItemsMaker, OutOfMemory> {
        match origin {
            KeywordOrigin::Own(_) => Ok(ItemsMaker::Begins),
            KeywordOrigin::Builtin(entry) => match entry.keyword {
                BuiltinKeyword::TypeKeyword => Ok(ItemsMaker::ArrayType),
                _ => Ok(ItemsMaker::Nothing),
            },
        }
    }

    fn turn(
        &self,
        alloc: Global,
        maker: &mut ItemsMaker,
        reply: MakerReply,
    ) -> Result<MakerStep<ItemsKeyword>, OutOfMemory> {
        match maker {
            ItemsMaker::Begins => {
                *maker = ItemsMaker::WantsPending;
                Ok(MakerStep::Pending(PendingKind::Items))
            }
            ItemsMaker::WantsPending => match given(reply) {
                Some(number) => maker.ask_value(alloc, number),
                None => {
                    *maker = ItemsMaker::WantsReserved;
                    Ok(MakerStep::Reserve(PendingKind::Items))
                }
            },
            ItemsMaker::WantsReserved => match given(reply) {
                Some(number) => maker.ask_value(alloc, number),
                None => Ok(MakerStep::Nothing),
            },
            ItemsMaker::WantsChild(number) => {
                let made = keyword(ItemsPlan::EachItem, Some(*number));
                *maker = ItemsMaker::Over;
                Ok(MakerStep::Keyword(made, Vec::new(alloc)))
            }
            ItemsMaker::ArrayType => {
                *maker = ItemsMaker::Over;
                let made = keyword(ItemsPlan::ArrayType, None);
                Ok(MakerStep::Keyword(made, Vec::new(alloc)))
            }
            ItemsMaker::Nothing => {
                *maker = ItemsMaker::Over;
                Ok(MakerStep::Nothing)
            }
            ItemsMaker::Over => Ok(MakerStep::Nothing),
        }
    }

    ghost right = { λ t. items_right };
}
