//! The keyword table, whose makers make keywords by turns.
//!
//! A table says whether the text of a refusal is defined. It has to be defined if the object has no
//! fraction.
ghost use Rattle.std.specs.Prelude.{◌≡◌, ◌<◌, Bool, IfOk};
ghost use Rattle.schema_traits.specs.Showing.{Shows};
ghost use Rattle.serde_json.specs.View.{members_view};
ghost use Rattle.serde_json.specs.Data.{Members};
ghost use Rattle.theory_definitions.specs.Instance.{Text};
ghost use Rattle.theory_definitions.specs.Drafts as drafts;
ghost use Rattle.theory_definitions.specs.Making as spec;
ghost use Rattle.schema_drafts.specs.KeywordViews.{draft_of};
ghost use Rattle.schema_traits.specs.MakerViews.{Waiting, begun, is_own, name_of, maker_reply_of, TakesTurn, MakesRightly};

use crate::keyword::Validate;
use crate::numbers::PendingSchemaNode;
use crate::schema_place::SchemaPath;
use schema_drafts::{BuiltinEntry, Draft, VocabularySet};
use schema_reports::{OutOfMemory, OwnedError};
use serde_json::{Map, Value};
use std::alloc::Global;

/// The keyword that a maker makes: the table's own, by its name, or one of the standard.
#[derive(Clone, Copy)]
pub enum KeywordOrigin<'s> {
    Own(&'s str),
    Builtin(BuiltinEntry),
}

impl<'s> KeywordOrigin<'s> {
    /// Returns the keyword's name, as written in schemas.
    pub fn name(self) -> &'s str
        ensures name { result.now ≡ name_of self.entry }
    {
        match self {
            KeywordOrigin::Own(name) => name,
            KeywordOrigin::Builtin(entry) => entry.keyword.as_str(),
        }
    }
}

/// What a maker reserves a number for.
#[derive(Clone, Copy, PartialEq, Eq)]
pub enum PendingKind {
    Properties,
    Items,
}

/// What the next turn of a maker receives.
///
/// Only requests for subschemas and references are numbered.
#[derive(Clone, Copy)]
pub enum MakerReply {
    /// Nothing: this is the first turn.
    Begun,
    /// The number of its request, by which its keyword asks the child.
    Child(usize),
    /// The reference leads to the object itself, and is skipped.
    Skipped,
    /// The number that is pending, if there is one.
    Pending(Option<PendingSchemaNode>),
    /// The number that was reserved.
    Reserved(PendingSchemaNode),
}

/// What a maker requests, or how it ends.
#[derive(Drop)]
pub enum MakerStep<K> {
    /// Requests that the value at a path strictly below the object be compiled.
    ///
    /// Made by every keyword with subschemas.
    Compile(SchemaPath),
    /// Requests that the text be compiled as a reference at the keyword.
    ///
    /// No keyword of this repository makes it; it is for custom tables. The compiler itself
    /// compiles `$ref`.
    Refer(String),
    /// Requests the number that is pending for this purpose and this object.
    ///
    /// That is the one reserved last, by a maker that has not ended. No keyword of the standard
    /// makes it, only tests and custom tables.
    Pending(PendingKind),
    /// Reserves the next number until the maker ends.
    ///
    /// The number is for a node of its keyword alone, or of no entry, and is only ever marked. No
    /// keyword of the standard makes it, only tests and custom tables.
    Reserve(PendingKind),
    /// Ends with a keyword, and with the names of the keywords that it absorbs.
    ///
    /// Made for every keyword. No keyword of the standard absorbs others.
    Keyword(K, Vec<String>),
    /// Ends without a keyword.
    ///
    /// Made for keywords that say nothing, such as `format` if formats are not checked.
    Nothing,
    /// Ends with a refusal of the schema.
    ///
    /// Made for keywords whose value the standard does not allow, such as a `minimum` that is a
    /// string, and for keywords that the table of the standard does not support, such as
    /// `unevaluatedItems`.
    Refuse(OwnedError),
}

/// The table of keywords.
///
/// A maker follows a script, which mentions no node numbers. Whether or not a number is pending, it
/// requests the same subschemas and references, and ends the same.
pub trait KeywordTable<K: Validate> {
    type Maker: Drop;

    ghost owned: { Self → Text → Bool };

    ghost script: { Self → Bool → Text → Members → drafts.Draft → drafts.Vocabularies → Bool → spec.Script K.Shape };

    ghost waiting: { Self.Maker → Waiting K.Shape };

    /// Returns whether keywords of this name are the table's own.
    fn owns(&self, name: &str) -> bool
        ensures owned { result ≡ owned self.now name.now };

    /// Starts the maker of one member of an object.
    ///
    /// `formats` says whether formats are checked by default.
    fn begin(
        &self,
        alloc: Global,
        origin: KeywordOrigin<'_>,
        object: &Map<String, Value>,
        draft: Draft,
        vocabularies: &VocabularySet,
        formats: bool,
    ) -> Result<Self::Maker, OutOfMemory>
        ensures begins { Shows waiting result (begun (script self.now (is_own origin.entry) (name_of origin.entry)
            (members_view object.now.entries) (draft_of draft) vocabularies.now formats)) };

    /// Takes a turn, given the reply to the previous turn's request.
    fn turn(
        &self,
        alloc: Global,
        maker: &mut Self::Maker,
        reply: MakerReply,
    ) -> Result<MakerStep<K>, OutOfMemory>
        ensures takes { IfOk result (λ step. TakesTurn K.shape (waiting maker.old) (maker_reply_of reply) step (waiting maker.new)) };

    ghost right: { (t : Self) (own : Bool) (name : Text) (object : Members) (draft : drafts.Draft)
        (vocabularies : drafts.Vocabularies) (formats : Bool)
        → MakesRightly K.absorbed K.is_whole object (script t own name object draft vocabularies formats) };
}
