//! Makers that request paths one by one.
ghost use Rattle.std.specs.Prelude.{◌≡◌, [], Some, IfOk};
ghost use Rattle.serde_json.specs.View.{items_view};
ghost use Rattle.theory_definitions.specs.Making.{a_keyword, then_end};
ghost use Rattle.schema_traits.specs.MakerViews.{begun};
ghost use Rattle.keyword_makers.specs.Making.{asks_for, each_item, only_child};
ghost use Rattle.keyword_makers.specs.MakerViews.{Begins, made_of, waiting_of, TakesPathsTurn};

use crate::paths::{items_below, value_of};
use schema_reports::{OutOfMemory, OwnedError};
use schema_traits::{MakerReply, MakerStep, SchemaPath, Validate};
use serde_json::Value;
use std::alloc::Global;
use std::mem;

/// How a maker ends: with a keyword, with none, or with a refusal.
#[derive(Drop)]
pub enum Ending<K> {
    Keyword(K),
    Nothing,
    Refused(OwnedError),
}

/// A maker that requests paths in order, and then ends.
///
/// `asked` counts the paths that were requested; they have been moved out of `paths`. `ends` is
/// `None` once the maker has ended.
#[derive(Drop)]
pub struct PathsMaker<K> {
    pub paths: Vec<SchemaPath>,
    pub asked: usize,
    pub ends: Option<Ending<K>>,
}

/// Returns a maker that ends at once.
pub fn ends<K: Validate>(alloc: Global, ending: Ending<K>) -> PathsMaker<K>
    ensures maker { waiting_of K.shape result ≡ begun (then_end (made_of K.shape ending)) }
{
    PathsMaker {
        paths: Vec::new(alloc),
        asked: 0,
        ends: Some(ending),
    }
}

/// Returns a maker that requests these paths, and ends with a keyword.
pub fn asks_for<K: Validate>(paths: Vec<SchemaPath>, keyword: K) -> PathsMaker<K>
    ensures maker { waiting_of K.shape result ≡ begun (asks_for paths.items (a_keyword (K.shape keyword) [])) }
{
    PathsMaker {
        paths,
        asked: 0,
        ends: Some(Ending::Keyword(keyword)),
    }
}

/// Returns a maker whose keyword has its own value as its only schema.
pub fn only_child<K: Validate>(
    alloc: Global,
    name: &str,
    keyword: K,
) -> Result<PathsMaker<K>, OutOfMemory>
    ensures maker { IfOk result (Begins K.shape (only_child name.now (K.shape keyword))) }
{
    let mut paths = Vec::new(alloc);
    paths.push(value_of(alloc, name)?)?;
    Ok(asks_for(paths, keyword))
}

/// Returns a maker that requests each item of a keyword's value, an array.
pub fn each_item<K: Validate>(
    alloc: Global,
    name: &str,
    items: &[Value],
    keyword: K,
) -> Result<PathsMaker<K>, OutOfMemory>
    ensures maker { IfOk result (Begins K.shape (each_item name.now (items_view items.now) (K.shape keyword))) }
{
    let paths = items_below(alloc, name, items)?;
    Ok(asks_for(paths, keyword))
}

impl<K: Validate> PathsMaker<K> {
    /// Takes a turn.
    #[tactic(auto, using(crate::proofs::HandedOut::handed_out))]
    pub fn turn(&mut self, alloc: Global, _reply: MakerReply) -> Result<MakerStep<K>, OutOfMemory>
        ensures takes { IfOk result (TakesPathsTurn K.shape self.old _reply self.new) }
    {
        if self.asked < self.paths.len() {
            let path = mem::replace(&mut self.paths[self.asked], SchemaPath::root(alloc));
            self.asked += 1;
            return Ok(MakerStep::Compile(path));
        }
        match self.ends.take() {
            Some(ending) => match ending {
                Ending::Keyword(keyword) => Ok(MakerStep::Keyword(keyword, Vec::new(alloc))),
                Ending::Nothing => Ok(MakerStep::Nothing),
                Ending::Refused(error) => Ok(MakerStep::Refuse(error)),
            },
            None => Ok(MakerStep::Nothing),
        }
    }
}
