//! The join of two keyword tables by a list of names.
//!
//! A join gets the names of the first table, because no function of the trait returns the names for
//! which a table makes keywords.
ghost use Rattle.std.specs.Prelude.{◌≡◌, ◌||◌, bytes_eq, IfOk};
ghost use Rattle.std.specs.List.{list_any};
ghost use Rattle.schema_traits.specs.MakerViews.{TakesTurn, maker_reply_of};
ghost use Rattle.keyword_joins.specs.BothScripts.{both_waiting, step_as};
ghost use Rattle.keyword_joins.specs.Sides.{side_of};
ghost use Rattle.keyword_joins.specs.declared.both.Both.TheVariants as both;

use crate::both::Both;
use schema_drafts::{Draft, VocabularySet};
use schema_reports::OutOfMemory;
use schema_traits::{KeywordOrigin, KeywordTable, MakerReply, MakerStep, Validate};
use serde_json::{Map, Value};
use std::alloc::Global;

/// Two tables as one, joined by a list of names.
///
/// The names of the list, and those that the first table owns, go to the first table, and all
/// others to the second. The table that a name goes to decides whether keywords of this name are a
/// table's own, and what a member makes. If that table makes no keyword for a name, then nothing is
/// made, even if the other table has one. The names that a keyword absorbs must go to its own
/// table, or the other table makes keywords of them as well.
#[derive(Drop)]
pub struct BothTable<S, T> {
    pub first: S,
    pub first_names: &'static [&'static str],
    pub second: T,
}

fn is_among(name: &str, names: &[&str]) -> bool
    ensures among { result ≡ list_any (λ k. bytes_eq name.now k.now) names.now }
{
    for other in names {
        if name == *other {
            return true;
        }
    }
    false
}

fn goes_first<K: Validate, S: KeywordTable<K>>(first: &S, names: &[&str], name: &str) -> bool
    ensures goes { result ≡ (list_any (λ k. bytes_eq name.now k.now) names.now || S.owned first.now name.now) }
{
    is_among(name, names) || first.owns(name)
}

fn first_step<A, B>(step: MakerStep<A>) -> MakerStep<Both<A, B>>
    ensures step { result ≡ step_as both.First step }
{
    match step {
        MakerStep::Compile(path) => MakerStep::Compile(path),
        MakerStep::Refer(text) => MakerStep::Refer(text),
        MakerStep::Pending(kind) => MakerStep::Pending(kind),
        MakerStep::Reserve(kind) => MakerStep::Reserve(kind),
        MakerStep::Keyword(keyword, names) => MakerStep::Keyword(Both::First(keyword), names),
        MakerStep::Nothing => MakerStep::Nothing,
        MakerStep::Refuse(error) => MakerStep::Refuse(error),
    }
}

fn second_step<A, B>(step: MakerStep<B>) -> MakerStep<Both<A, B>>
    ensures step { result ≡ step_as both.Second step }
{
    match step {
        MakerStep::Compile(path) => MakerStep::Compile(path),
        MakerStep::Refer(text) => MakerStep::Refer(text),
        MakerStep::Pending(kind) => MakerStep::Pending(kind),
        MakerStep::Reserve(kind) => MakerStep::Reserve(kind),
        MakerStep::Keyword(keyword, names) => MakerStep::Keyword(Both::Second(keyword), names),
        MakerStep::Nothing => MakerStep::Nothing,
        MakerStep::Refuse(error) => MakerStep::Refuse(error),
    }
}

/// Takes a turn of a maker of one of the two tables.
pub(crate) fn turn_either<A: Validate, B: Validate, S: KeywordTable<A>, T: KeywordTable<B>>(
    first: &S,
    second: &T,
    alloc: Global,
    maker: &mut Both<S::Maker, T::Maker>,
    reply: MakerReply,
) -> Result<MakerStep<Both<A, B>>, OutOfMemory>
    ensures takes { IfOk result (λ step. TakesTurn (side_of A.shape B.shape) (both_waiting S.waiting T.waiting maker.old)
        (maker_reply_of reply) step (both_waiting S.waiting T.waiting maker.new)) }
{
    match maker {
        Both::First(maker) => Ok(first_step(first.turn(alloc, maker, reply)?)),
        Both::Second(maker) => Ok(second_step(second.turn(alloc, maker, reply)?)),
    }
}

impl<A: Validate, B: Validate, S: KeywordTable<A>, T: KeywordTable<B>> KeywordTable<Both<A, B>>
    for BothTable<S, T> {
    ghost use Rattle.keyword_joins.specs.BothTables.{both_makes_rightly};
    ghost use Rattle.keyword_joins.specs.BothScripts.{both_owned, both_script, both_waiting};

    type Maker = Both<S::Maker, T::Maker>;

    ghost owned = { both_owned S.owned T.owned };

    ghost script = { both_script S.owned S.script T.script };

    ghost waiting = { both_waiting S.waiting T.waiting };

    fn owns(&self, name: &str) -> bool {
        if goes_first(&self.first, self.first_names, name) {
            self.first.owns(name)
        } else {
            self.second.owns(name)
        }
    }

    fn begin(
        &self,
        alloc: Global,
        origin: KeywordOrigin<'_>,
        object: &Map<String, Value>,
        draft: Draft,
        vocabularies: &VocabularySet,
        formats: bool,
    ) -> Result<Both<S::Maker, T::Maker>, OutOfMemory> {
        if goes_first(&self.first, self.first_names, origin.name()) {
            let maker = self
                .first
                .begin(alloc, origin, object, draft, vocabularies, formats)?;
            Ok(Both::First(maker))
        } else {
            let maker = self
                .second
                .begin(alloc, origin, object, draft, vocabularies, formats)?;
            Ok(Both::Second(maker))
        }
    }

    fn turn(
        &self,
        alloc: Global,
        maker: &mut Both<S::Maker, T::Maker>,
        reply: MakerReply,
    ) -> Result<MakerStep<Both<A, B>>, OutOfMemory> {
        turn_either(&self.first, &self.second, alloc, maker, reply)
    }

    ghost right = { both_makes_rightly S.owned S.script T.script A.absorbed B.absorbed A.is_whole B.is_whole S.right T.right };
}
