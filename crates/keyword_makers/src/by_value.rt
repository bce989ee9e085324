//! Tables whose keywords depend on a member's name and value.
ghost use Rattle.std.specs.Prelude.{◌≡◌, Bool, IfOk};
ghost use Rattle.serde_json.specs.Data.{Data};
ghost use Rattle.serde_json.specs.Find.{get_member};
ghost use Rattle.serde_json.specs.View.{view};
ghost use Rattle.theory_definitions.specs.Instance.{Text};
ghost use Rattle.keyword_makers.specs.ByValue.{IsRightMember, MadeMember, children_of, named, script_at, script_of, shaped};
ghost use Rattle.keyword_makers.specs.MakerViews.{Begins, waiting_of};
ghost use Rattle.schema_traits.specs.Readings.{Lists, fields};

use crate::maker::{Ending, PathsMaker, asks_for, ends};
use crate::members::{member_below, names_of, values_below};
use crate::paths::{items_below, value_in, value_of};
use crate::refusals::malformed;
use schema_drafts::{Draft, VocabularySet};
use schema_reports::OutOfMemory;
use schema_traits::{KeywordOrigin, KeywordTable, MakerReply, MakerStep, SchemaPath, Validate};
use serde_json::{Map, Value};
use std::alloc::Global;

/// The children of a keyword, in the order of their numbers.
///
/// `N` is the type of a member's name.
#[derive(Clone, Copy)]
pub enum Children<N = &'static str> {
    Childless,
    /// The keyword's value is the only child.
    Itself,
    /// Each item of the value, which is an array.
    Items,
    /// Each member of the value, which is an object, in the order of the names.
    Members,
    /// The value of the member with this name is the only child.
    ///
    /// The keyword's value is an object that has it.
    Member(N),
}

/// What a member of a schema makes.
#[derive(Drop)]
pub enum MemberKeyword<K, C = Children> {
    Keyword(K, C),
    Nothing,
    /// The keyword does not allow this value. The schema is refused.
    Malformed,
}

/// Decides which keyword a member of a schema makes, by its name and value.
///
/// `TableByValue` turns an implementation into a keyword table.
pub trait MakesByValue<K: Validate> {
    // The names that are its own.
    ghost owned: { Self → Text → Bool };

    // What a member makes.
    ghost made: { Self → Text → Data → MadeMember K.Shape };

    /// Returns whether a name is the table's own.
    ///
    /// Such a name is unknown to the standard's drafts, or makes another keyword here.
    fn owns(&self, name: &str) -> bool
        ensures owned { result ≡ owned self.now name.now };

    /// Returns what a member with this name and value makes.
    ///
    /// It is called for the table's own names, and for those that the standard's drafts know.
    fn make(
        &self,
        alloc: Global,
        name: &str,
        value: &Value,
    ) -> Result<MemberKeyword<K>, OutOfMemory>
        ensures made { IfOk result (λ m. shaped K.shape m ≡ made self.now name.now (view value.now)) };

    // The keyword absorbs no other, and holds no fraction if its value holds none.
    ghost right: { (t : Self) (name : Text) (value : Data) → IsRightMember K.absorbed K.is_whole value (made t name value) };
}

/// A keyword table whose keywords depend on name and value.
///
/// A malformed value is refused. The error shows the value, and its location is the keyword's.
#[derive(Drop)]
pub struct TableByValue<T> {
    pub keywords: T,
}

pub(crate) fn paths_of(
    alloc: Global,
    children: Children,
    name: &str,
    value: &Value,
) -> Result<Vec<SchemaPath>, OutOfMemory>
    ensures paths { Lists result (children_of (named children.entry) name.now (view value.now)) }
{
    match children {
        Children::Childless => Ok(Vec::new(alloc)),
        Children::Itself => {
            let mut paths = Vec::new(alloc);
            paths.push(value_of(alloc, name)?)?;
            Ok(paths)
        }
        Children::Items => match value {
            Value::Array(items) => items_below(alloc, name, items.as_slice()),
            _ => Ok(Vec::new(alloc)),
        },
        Children::Members => match value {
            Value::Object(members) => {
                let names = names_of(alloc, members)?;
                values_below(alloc, name, names.as_slice())
            }
            _ => Ok(Vec::new(alloc)),
        },
        Children::Member(member) => {
            let mut paths = Vec::new(alloc);
            paths.push(member_below(alloc, name, member)?)?;
            Ok(paths)
        }
    }
}

fn maker_of<K: Validate>(
    alloc: Global,
    name: &str,
    value: &Value,
    made: MemberKeyword<K>,
) -> Result<PathsMaker<K>, OutOfMemory>
    ensures maker { IfOk result (Begins K.shape (script_of name.now (view value.now) (shaped K.shape made.entry))) }
{
    match made {
        MemberKeyword::Keyword(keyword, children) => {
            let paths = paths_of(alloc, children, name, value)?;
            Ok(asks_for(paths, keyword))
        }
        MemberKeyword::Nothing => Ok(ends(alloc, Ending::Nothing)),
        MemberKeyword::Malformed => malformed(alloc, name, value),
    }
}

fn member_maker<K: Validate, T: MakesByValue<K>>(
    keywords: &T,
    alloc: Global,
    name: &str,
    object: &Map<String, Value>,
) -> Result<PathsMaker<K>, OutOfMemory>
    ensures maker { IfOk result (Begins K.shape (script_at (T.made keywords.now) name.now (get_member name.now (fields object.now)))) }
{
    match value_in(object, name) {
        None => Ok(ends(alloc, Ending::Nothing)),
        Some(value) => {
            let made = keywords.make(alloc, name, value)?;
            maker_of(alloc, name, value, made)
        }
    }
}

impl<K: Validate, T: MakesByValue<K>> KeywordTable<K> for TableByValue<T> {
    ghost use Rattle.keyword_makers.specs.ByValue.{by_value, makes_by_value};

    type Maker = PathsMaker<K>;

    ghost owned = { λ t name. T.owned t.keywords name };

    ghost script = { λ t. by_value (T.made t.keywords) };

    ghost waiting = { waiting_of K.shape };

    fn owns(&self, name: &str) -> bool {
        self.keywords.owns(name)
    }

    fn begin(
        &self,
        alloc: Global,
        origin: KeywordOrigin<'_>,
        object: &Map<String, Value>,
        _draft: Draft,
        _vocabularies: &VocabularySet,
        _formats: bool,
    ) -> Result<PathsMaker<K>, OutOfMemory> {
        member_maker(&self.keywords, alloc, origin.name(), object)
    }

    fn turn(
        &self,
        alloc: Global,
        maker: &mut PathsMaker<K>,
        reply: MakerReply,
    ) -> Result<MakerStep<K>, OutOfMemory> {
        maker.turn(alloc, reply)
    }

    ghost right = { λ t. makes_by_value K.absorbed K.is_whole (T.made t.keywords) (T.right t.keywords) };
}
