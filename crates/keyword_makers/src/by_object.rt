//! Tables whose keywords depend on name, value, draft and neighbouring members.
ghost use Rattle.std.specs.Prelude.{◌≡◌, Bool, IfOk, Some};
ghost use Rattle.serde_json.specs.Data.{Data, Members};
ghost use Rattle.serde_json.specs.Find.{get_member};
ghost use Rattle.serde_json.specs.View.{view};
ghost use Rattle.theory_definitions.specs.Drafts as drafts;
ghost use Rattle.theory_definitions.specs.Instance.{Text};
ghost use Rattle.schema_drafts.specs.KeywordViews.{draft_of};
ghost use Rattle.keyword_makers.specs.ByObject.{IsRightHere, MadeHere, formed, malformed_beside, script_found, script_here};
ghost use Rattle.keyword_makers.specs.MakerViews.{Begins, waiting_of};
ghost use Rattle.schema_traits.specs.Readings.{fields};

use crate::by_value::{Children, paths_of};
use crate::maker::{Ending, PathsMaker, asks_for, ends};
use crate::members::values_below;
use crate::paths::value_in;
use crate::refusals::{malformed, refused};
use schema_drafts::{Draft, VocabularySet};
use schema_reports::OutOfMemory;
use schema_traits::{KeywordOrigin, KeywordTable, MakerReply, MakerStep, Validate};
use serde_json::{Map, Value};
use std::alloc::Global;

/// What a member of an object makes.
#[derive(Drop)]
pub enum ObjectKeyword<K, C = Children, L = Vec<String>, N = &'static str, T = String> {
    Keyword(K, C),
    /// The children are the values of the members with these names, in order.
    ///
    /// The keyword's value is an object that has them.
    KeywordOver(K, L),
    Nothing,
    /// The keyword does not allow this value. The schema is refused.
    Malformed,
    /// The keyword does not allow the value of a neighbouring member.
    ///
    /// The schema is refused. The error shows that value, at its own place. If there is no such
    /// member, this is the same as `Malformed`.
    MalformedBeside(N),
    /// The schema is refused, with this text.
    Refused(T),
}

/// Decides which keyword a member of a schema makes.
///
/// It depends on the member's name and value, on the draft, and on the other members.
/// `TableByObject` turns an implementation into a keyword table.
pub trait MakesByObject<K: Validate> {
    // The names that are its own.
    ghost owned: { Self → Text → Bool };

    // What a member of an object makes in a draft.
    ghost made: { Self → drafts.Draft → Members → Text → Data → MadeHere K.Shape };

    /// Returns whether a name is the table's own.
    ///
    /// Such a name is unknown to the standard's drafts, or makes another keyword here.
    fn owns(&self, name: &str) -> bool
        ensures owned { result ≡ owned self.now name.now };

    /// Returns what a member with this name and value makes in this object.
    ///
    /// It is called for the table's own names, and for those that the draft knows.
    fn make(
        &self,
        alloc: Global,
        name: &str,
        value: &Value,
        object: &Map<String, Value>,
        draft: Draft,
    ) -> Result<ObjectKeyword<K>, OutOfMemory>
        ensures made { IfOk result (λ m. formed K.shape m ≡ made self.now (draft_of draft) (fields object.now) name.now (view value.now)) };

    // The keyword absorbs no other, and holds no fraction if the object holds none.
    ghost right: { (t : Self) (draft : drafts.Draft) (object : Members) (name : Text) (value : Data)
        → get_member name object ≡ Some value → IsRightHere K.absorbed K.is_whole object (made t draft object name value) };
}

/// A keyword table whose keywords depend on the object.
///
/// A malformed value is refused. The error shows the value, and its location is the keyword's.
#[derive(Drop)]
pub struct TableByObject<T> {
    pub keywords: T,
}

fn beside_maker<K: Validate>(
    alloc: Global,
    name: &str,
    value: &Value,
    object: &Map<String, Value>,
    beside: &str,
) -> Result<PathsMaker<K>, OutOfMemory>
    ensures maker { IfOk result (Begins K.shape (malformed_beside name.now (view value.now) beside.now (get_member beside.now
        (fields object.now)))) }
{
    match value_in(object, beside) {
        None => malformed(alloc, name, value),
        Some(other) => malformed(alloc, beside, other),
    }
}

/// Returns the maker of what a member with this name and value makes.
///
/// A refusal shows the value, and its location is the keyword's.
///
/// # Errors
///
/// Out of memory.
pub fn maker_of<K: Validate>(
    alloc: Global,
    name: &str,
    value: &Value,
    object: &Map<String, Value>,
    made: ObjectKeyword<K>,
) -> Result<PathsMaker<K>, OutOfMemory>
    ensures maker { IfOk result (Begins K.shape (script_here (fields object.now) name.now (view value.now) (formed K.shape made.entry))) }
{
    match made {
        ObjectKeyword::Keyword(keyword, children) => {
            let paths = paths_of(alloc, children, name, value)?;
            Ok(asks_for(paths, keyword))
        }
        ObjectKeyword::KeywordOver(keyword, names) => {
            let paths = values_below(alloc, name, names.as_slice())?;
            Ok(asks_for(paths, keyword))
        }
        ObjectKeyword::Nothing => Ok(ends(alloc, Ending::Nothing)),
        ObjectKeyword::Malformed => malformed(alloc, name, value),
        ObjectKeyword::MalformedBeside(beside) => beside_maker(alloc, name, value, object, beside),
        ObjectKeyword::Refused(text) => refused(alloc, name, value, text),
    }
}

fn member_maker<K: Validate, T: MakesByObject<K>>(
    keywords: &T,
    alloc: Global,
    name: &str,
    object: &Map<String, Value>,
    draft: Draft,
) -> Result<PathsMaker<K>, OutOfMemory>
    ensures maker { IfOk result (Begins K.shape (script_found (T.made keywords.now) (draft_of draft) (fields object.now) name.now
        (get_member name.now (fields object.now)))) }
{
    match value_in(object, name) {
        None => Ok(ends(alloc, Ending::Nothing)),
        Some(value) => {
            let made = keywords.make(alloc, name, value, object, draft)?;
            maker_of(alloc, name, value, object, made)
        }
    }
}

impl<K: Validate, T: MakesByObject<K>> KeywordTable<K> for TableByObject<T> {
    ghost use Rattle.keyword_makers.specs.ByObject.{by_object, makes_by_object};

    type Maker = PathsMaker<K>;

    ghost owned = { λ t name. T.owned t.keywords name };

    ghost script = { λ t. by_object (T.made t.keywords) };

    ghost waiting = { waiting_of K.shape };

    fn owns(&self, name: &str) -> bool {
        self.keywords.owns(name)
    }

    fn begin(
        &self,
        alloc: Global,
        origin: KeywordOrigin<'_>,
        object: &Map<String, Value>,
        draft: Draft,
        _vocabularies: &VocabularySet,
        _formats: bool,
    ) -> Result<PathsMaker<K>, OutOfMemory> {
        member_maker(&self.keywords, alloc, origin.name(), object, draft)
    }

    fn turn(
        &self,
        alloc: Global,
        maker: &mut PathsMaker<K>,
        reply: MakerReply,
    ) -> Result<MakerStep<K>, OutOfMemory> {
        maker.turn(alloc, reply)
    }

    ghost right = { λ t. makes_by_object K.absorbed K.is_whole (T.made t.keywords) (T.right t.keywords) };
}
