//! The join of two keyword tables by a route.
//!
//! The route decides draft by draft for each keyword of the standard.
ghost use Rattle.std.specs.Prelude.{◌≡◌, Bool, if◌then◌else◌};
ghost use Rattle.serde_json.specs.Data.{Members};
ghost use Rattle.serde_json.specs.View.{members_view};
ghost use Rattle.theory_definitions.specs.Drafts as drafts;
ghost use Rattle.theory_definitions.specs.Instance.{Text};
ghost use Rattle.schema_drafts.specs.KeywordViews.{builtin_text, draft_of};
ghost use Rattle.schema_traits.specs.MakerViews as makers;

use crate::both::Both;
use crate::table::turn_either;
use schema_drafts::{BuiltinKeyword, Draft, VocabularySet};
use schema_reports::OutOfMemory;
use schema_traits::{KeywordOrigin, KeywordTable, MakerReply, MakerStep, Validate};
use serde_json::{Map, Value};
use std::alloc::Global;

/// Decides which of the standard's keywords go to the first of two tables.
pub trait Route: Drop {
    ghost leads: { Self → drafts.Draft → Members → Text → Bool };

    /// Returns whether the member of this keyword goes to the first table.
    ///
    /// The draft is one that has the keyword.
    fn leads_first(
        &self,
        draft: Draft,
        object: &Map<String, Value>,
        keyword: BuiltinKeyword,
    ) -> bool
        ensures leads { result ≡ leads self.now (draft_of draft) (members_view object.now.entries) (builtin_text keyword) };
}

/// Two tables as one, joined by a route.
///
/// A keyword of the standard goes to the first table if the route says so, and otherwise to the
/// second. A name that the first table owns goes to the first table; any other name that the second
/// owns goes to the second. If its table makes no keyword for a name, then nothing is made, even if
/// the other table has one. The names that a keyword absorbs must go to its own table, or the other
/// table makes keywords of them as well.
#[derive(Drop)]
pub struct RoutedTables<S, R, T> {
    pub first: S,
    pub route: R,
    pub second: T,
}

fn goes_first<K: Validate, S: KeywordTable<K>, R: Route>(
    first: &S,
    route: &R,
    origin: KeywordOrigin<'_>,
    object: &Map<String, Value>,
    draft: Draft,
) -> bool
    ensures goes { result ≡ (if makers.is_own origin.entry then S.owned first.now (makers.name_of origin.entry)
        else R.leads route.now (draft_of draft) (members_view object.now.entries) (makers.name_of origin.entry)) }
{
    match origin {
        KeywordOrigin::Own(name) => first.owns(name),
        KeywordOrigin::Builtin(entry) => route.leads_first(draft, object, entry.keyword),
    }
}

impl<A: Validate, B: Validate, S: KeywordTable<A>, R: Route, T: KeywordTable<B>> KeywordTable<
    Both<A, B>,
> for RoutedTables<S, R, T> {
    ghost use Rattle.keyword_joins.specs.BothScripts.{both_waiting};
    ghost use Rattle.keyword_joins.specs.RoutedScripts.{routed_owned, routed_script};
    ghost use Rattle.keyword_joins.specs.RoutedLaws.{routed_make_rightly};

    type Maker = Both<S::Maker, T::Maker>;

    ghost owned = { routed_owned S.owned T.owned };

    ghost script = { routed_script S.owned R.leads S.script T.script };

    ghost waiting = { both_waiting S.waiting T.waiting };

    fn owns(&self, name: &str) -> bool {
        self.first.owns(name) || self.second.owns(name)
    }

    fn begin(
        &self,
        alloc: Global,
        origin: KeywordOrigin<'_>,
        object: &Map<String, Value>,
        draft: Draft,
        vocabularies: &VocabularySet,
        formats: bool,
    ) -> Result<Both<S::Maker, T::Maker>, OutOfMemory> {
        if goes_first(&self.first, &self.route, origin, object, draft) {
            let maker = self
                .first
                .begin(alloc, origin, object, draft, vocabularies, formats)?;
            Ok(Both::First(maker))
        } else {
            let maker = self
                .second
                .begin(alloc, origin, object, draft, vocabularies, formats)?;
            Ok(Both::Second(maker))
        }
    }

    fn turn(
        &self,
        alloc: Global,
        maker: &mut Both<S::Maker, T::Maker>,
        reply: MakerReply,
    ) -> Result<MakerStep<Both<A, B>>, OutOfMemory> {
        turn_either(&self.first, &self.second, alloc, maker, reply)
    }

    ghost right = { routed_make_rightly S.owned R.leads S.script T.script A.absorbed B.absorbed A.is_whole B.is_whole S.right T.right };
}
