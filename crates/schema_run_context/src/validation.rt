//! The state of a run: pairs in progress, unfinished matches, marks and verdicts.
//!
//! The verdict of a guarded question depends on the pairs that are in progress at its place, and on
//! no other pairs. So such a verdict is kept and read only if no other node is in progress there.
//! The marks belong to one run of a keyword, so they are set aside while another one runs.
ghost use Rattle.std.specs.Prelude.{◌≡◌, ◌≤◌, [], IfOk, IfSome, OnErr, OnOk, false, is_some, true, OnSome};
ghost use Rattle.std.specs.Borrow.{sem};
ghost use Rattle.schema_traits.specs.Showing.{Yields};
ghost use Rattle.unfinished_matches.specs.MatchViews.{reason_of};
ghost use Rattle.theory_definitions.specs.Pointer.{joined};
ghost use Rattle.theory_definitions.specs.Runs.{without_last};
ghost use Rattle.theory_definitions.specs.Unfinished.{starting};
ghost use Rattle.schema_run_context.specs.EvaluationPaths.{GivesPath, is_under_reference, path_of};
ghost use Rattle.schema_run_context.specs.MarkViews.{is_marked, marks_with};
ghost use Rattle.schema_run_context.specs.RunMatches.{AddsNothing, a_pair, asked_in, assumed_in, matches_in, met_in};
ghost use Rattle.serde_json.specs.View.{view};
ghost use Rattle.schema_places.specs.Numbers.{NumbersAll};
ghost use Rattle.schema_run_context.specs.Progress.{Adds, Distinct, EntersAt, FewRows, IsLastAt, IsPlaceIn, IsWide, LeavesAt};
ghost use Rattle.schema_run_context.specs.Progress.{OnlyMarks, OnlyMatches, OnlyPairs, begun, is_busy_at, places_in};
ghost use Rattle.schema_run_context.specs.Verdicts.{MayKeepAt, OnlyVerdicts, RemembersAt};
ghost use Rattle.schema_run_context.specs.Verdicts.{forgetting, is_alone_at, is_container, one_more, read_at, verdict_at};
ghost use Rattle.schema_run_context.specs.UnitPaths.{HasPath, HasSchema, IsUnder};
ghost use Rattle.schema_run_context.specs.Works.{Asks, IsSpent};
ghost use Rattle.schema_reports.specs.InstanceViews.{subject_of};

use crate::bit_rows::{Rows, row_words};
use crate::evaluation_path::EvaluationPath;
use crate::kept_paths::KeptPaths;
use crate::marks::Marks;
use crate::numbered_pairs::{NumberedPair, count_at, make_counts, push_within};
use crate::unit_paths::{UnitPaths, UnitTexts};
use crate::work::Work;
use schema_places::{Places, PlacesOnDemand};
use schema_reports::{Instance, Location, OutOfMemory, SharedLocation};
use schema_traits::{Edge, Marked, Matcher, SchemaNode};
use std::alloc::Global;
use std::marker::Model;
use std::mem;
use unfinished_matches::{Match, MatchAssumptions, MatchSite, Reason};

/// A verdict is remembered if it took this many guarded visits.
const MEMO_MIN_VISITS: u64 = 16;

/// The state of one run.
///
/// It holds:
/// - the pairs of a node and a place that are in progress, each once, the last entered last;
/// - what the run assumes about unfinished matches, and those that it met;
/// - the marks of the current run of a keyword;
/// - the verdicts that the run remembers, of guarded questions and of shared nodes, and the number
/// of guarded visits;
/// - the number of nodes that the run may still evaluate, and how many may be open at once;
/// - cached evaluation paths and texts of units, which contracts do not see.
///
/// Places are known by their numbers, which are assigned when the first one is requested. The pairs
/// in progress are also stored as a row of bits for each node that was entered, and as a count for
/// each place. The verdicts of a node are stored as two rows: of the places whose verdict is known,
/// and of the verdicts.
#[derive(Drop)]
pub struct ValidationContext<'i> {
    alloc: Global,
    places: PlacesOnDemand<'i>,
    pairs: Vec<NumberedPair>,
    counts: Vec<usize>,
    guard: Rows,
    known: Rows,
    matches: MatchAssumptions<'i>,
    marking: Marks,
    visits: u64,
    work: Work,
    kept_paths: KeptPaths,
    unit_paths: UnitPaths,
}

fn is_container(instance: Instance<'_>) -> bool
    ensures container { result ≡ is_container (subject_of instance.entry) }
{
    match instance {
        Instance::Value(value) => value.is_array() || value.is_object(),
        Instance::Name(_) => false,
    }
}

impl<'i> Model for ValidationContext<'i> {
    ghost use Rattle.std.specs.Prelude.{◌+◌, map};
    ghost use Rattle.schema_run_context.specs.Progress.{Context, root_places};
    ghost use Rattle.schema_run_context.specs.ProgressViews.{Holds, all_verdicts, pair_of};
    ghost use Rattle.schema_run_context.specs.Rows.{row_numbers, words_in};
    ghost use Rattle.serde_json.specs.contracts.value.Value as value;
    ghost use Rattle.std.specs.Coded.{codes};

    ghost Value = { Context };

    ghost coded = { Prim.hlevel (codes, value.the_row.coded) };

    ghost view = { λ c. record {
      root = c.places;
      in_progress = map (pair_of (root_places c.places)) c.pairs.items;
      remembered = c.matches;
      marking = c.marking;
      verdicts = all_verdicts (root_places c.places) c.known;
      visits = c.visits;
      entered = row_numbers c.guard;
      kept = row_numbers c.known;
      words = words_in c.guard + words_in c.known;
      work = c.work;
    } };

    ghost invariant = { λ c. Holds (root_places c.places) (map (pair_of (root_places c.places)) c.pairs.items)
        c.counts.items c.guard c.known };
}

impl<'i> ValidationContext<'i> {
    ghost use Rattle.schema_run_context.specs.Lending.{EndsAs};

    /// Returns a context for an instance with these places, without assumptions.
    ///
    /// Nothing is in progress, marked or remembered. Allocates nothing.
    pub fn new(alloc: Global, places: PlacesOnDemand<'i>) -> ValidationContext<'i>
        ensures empty { result ≡ begun places.entry (starting []) }
    {
        ValidationContext::assuming(alloc, places, MatchAssumptions::new(alloc))
    }

    /// Returns a context for an instance with these places, with assumptions.
    ///
    /// Nothing is in progress or marked, and no verdict is remembered. The unfinished matches that
    /// were met under the assumptions stay remembered. Allocates nothing.
    pub fn assuming(
        alloc: Global,
        places: PlacesOnDemand<'i>,
        matches: MatchAssumptions<'i>,
    ) -> ValidationContext<'i>
        ensures assumes { result ≡ begun places.entry matches.entry }
    {
        ValidationContext {
            alloc,
            places,
            pairs: Vec::new(alloc),
            counts: Vec::new(alloc),
            guard: Rows::new(alloc),
            known: Rows::new(alloc),
            matches,
            marking: Marks::new(alloc),
            visits: 0,
            work: Work::unlimited(),
            kept_paths: KeptPaths::new(alloc),
            unit_paths: UnitPaths::new(alloc),
        }
    }

    /// Sets the number of nodes that the run may evaluate from now on.
    ///
    /// Allocates nothing.
    pub fn allow(&mut self, work: Work)
        ensures allowed { self.new ≡ record self.old { work = work } }
    {
        self.work = work;
    }

    /// Returns the number of nodes that the run may still evaluate.
    ///
    /// Allocates nothing.
    pub fn work(&self) -> Work
        ensures work { result ≡ self.now.work }
    {
        self.work
    }

    /// Counts the evaluation of a node. Allocates nothing.
    ///
    /// # Errors
    ///
    /// Returns an error exactly if there is a limit and no nodes are left. Then the budget is
    /// stopped.
    #[inline(always)]
    pub fn step(&mut self) -> Result<(), OutOfMemory>
        ensures asks { OnOk result (Asks self.old.work self.new.work) }
        ensures stops { OnErr result (IsSpent self.old.work) }
        ensures stopped { OnErr result (self.new.work ≡ record self.old.work { stopped = true }) }
        ensures frame { self.new ≡ record self.old { work = self.new.work } }
    {
        self.work.step()
    }

    /// Records that the run tried to open more questions at once than it may.
    ///
    /// The budget stays as it is if it has no such limit. Allocates nothing.
    pub fn stop_at_depth(&mut self)
        ensures too_deep { is_some self.old.work.deepest ≡ true → self.new.work ≡ record self.old.work { too_deep = true } }
        ensures unlimited { is_some self.old.work.deepest ≡ false → self.new.work ≡ self.old.work }
        ensures frame { self.new ≡ record self.old { work = self.new.work } }
    {
        self.work.stop_at_depth();
    }

    /// Returns the assumptions, with the unfinished matches that were met.
    ///
    /// Allocates nothing.
    pub fn into_matches(self) -> MatchAssumptions<'i>
        ensures remembered { result ≡ self.entry.remembered }
    {
        self.matches
    }

    /// Returns the places, for the next run, and what `into_matches` returns.
    ///
    /// Allocates nothing.
    pub fn into_parts(self) -> (PlacesOnDemand<'i>, MatchAssumptions<'i>)
        ensures root { result.0 ≡ self.entry.root }
        ensures remembered { result.1 ≡ self.entry.remembered }
    {
        let ValidationContext {
            places,
            matches,
            ..
        } = self;
        (places, matches)
    }

    /// Returns the numbered places.
    ///
    /// They are numbered at the first call, or when the first pair is entered.
    ///
    /// # Errors
    ///
    /// Out of memory. Then nothing has changed.
    pub fn places(&mut self) -> Result<&Places<'i>, OutOfMemory>
        ensures places { IfOk result (λ ps. ps.now ≡ places_in self.old) }
        ensures there { IfOk result (λ ps. NumbersAll (view self.old.root) ps.now) }
        ensures* unchanged { sem 𝓛 (EndsAs self.entry self.old) }
    {
        let alloc = self.alloc;
        let places = &mut self.places;
        places.numbered(alloc)
    }

    /// Returns whether the pair is in progress. Allocates nothing.
    pub fn is_in_progress(&self, node: SchemaNode, place: usize) -> bool
        requires known { IsPlaceIn self.now place }
        ensures found { result ≡ is_busy_at node.0 place self.now }
        ensures distinct { Distinct self.now.in_progress }
    {
        self.guard.has_bit(node.0, place)
    }

    /// Returns whether the pair is in progress, and enters it if it is not.
    ///
    /// # Errors
    ///
    /// Out of memory. Then nothing has changed.
    pub fn enter(&mut self, node: SchemaNode, place: usize) -> Result<bool, OutOfMemory>
        requires known { IsPlaceIn self.old place }
        ensures enters { IfOk result (EntersAt node.0 place self.old self.new) }
        ensures unchanged { OnErr result (self.new ≡ self.old) }
        ensures distinct { Distinct self.new.in_progress }
        ensures entered { OnOk result (Adds node.0 self.old.entered self.new.entered) }
        ensures few { OnOk result (FewRows self.new) }
        ensures wide { OnOk result (IsWide self.new) }
        ensures frame { OnlyPairs self.old self.new }
    {
        if self.guard.has_bit(node.0, place) {
            return Ok(true);
        }
        let places = self.places.numbered(self.alloc)?.len();
        self.pairs.reserve(1)?;
        make_counts(self.alloc, &mut self.counts, places)?;
        self.guard.make_row(self.alloc, node.0, row_words(places))?;
        push_within(&mut self.pairs, NumberedPair { node, place });
        self.guard.put_bit(node.0, 0, place, true);
        let count = self.counts[place];
        self.counts[place] = count + 1;
        Ok(false)
    }

    /// Removes the pair, which must be the last one entered.
    ///
    /// Allocates nothing.
    pub fn exit(&mut self, node: SchemaNode, place: usize)
        requires known { IsPlaceIn self.old place }
        requires last { IsLastAt node.0 place self.old }
        ensures left { LeavesAt node.0 place self.old self.new }
        ensures frame { OnlyPairs self.old self.new }
        ensures entered { self.new.entered ≡ self.old.entered }
        ensures words { self.new.words ≡ self.old.words }
    {
        self.pairs.pop();
        self.guard.put_bit(node.0, 0, place, false);
        let count = self.counts[place];
        self.counts[place] = count - 1;
    }

    /// Returns whether the run holds the same mark, and adds it if not.
    ///
    /// Two marks are the same if they are of the same request, or of children whose edges lead to
    /// the same node and are guarded alike. If the mark is added, the result is `false`.
    ///
    /// # Errors
    ///
    /// Out of memory. Then nothing has changed.
    pub fn enter_marking(
        &mut self,
        children: &[Option<Edge>],
        marked: Marked,
    ) -> Result<bool, OutOfMemory>
        ensures held { Yields result (is_marked children.now marked self.old.marking) }
        ensures marks { OnOk result (self.new.marking ≡ marks_with children.now marked self.old.marking) }
        ensures unchanged { OnErr result (self.new ≡ self.old) }
        ensures frame { OnlyMarks self.old self.new }
    {
        self.marking.enter(children, marked)
    }

    /// Removes the last mark of the current run of a keyword, if it has any.
    ///
    /// Allocates nothing.
    pub fn exit_marking(&mut self)
        ensures left { self.new.marking ≡ without_last self.old.marking }
        ensures frame { OnlyMarks self.old self.new }
    {
        self.marking.exit();
    }

    /// Takes the marks out, so that a keyword's run begins with none.
    ///
    /// Allocates nothing.
    pub fn set_aside(&mut self, alloc: Global) -> Marks
        ensures aside { result ≡ self.old.marking }
        ensures none { self.new.marking ≡ [] }
        ensures frame { OnlyMarks self.old self.new }
    {
        mem::replace(&mut self.marking, Marks::new(alloc))
    }

    /// Restores marks that were set aside, in place of those of the ended run.
    ///
    /// Allocates nothing.
    pub fn put_back(&mut self, aside: Marks)
        ensures back { self.new.marking ≡ aside }
        ensures frame { OnlyMarks self.old self.new }
    {
        self.marking = aside;
    }

    /// Returns whether the subject matches the pattern.
    ///
    /// If the matcher leaves the match unfinished, the result is the assumed one, or `false`
    /// without an assumption, and the match is remembered with its site.
    ///
    /// # Errors
    ///
    /// Out of memory. Then nothing has changed.
    pub fn is_match<M: Matcher>(
        &mut self,
        alloc: Global,
        matcher: &M,
        pattern: &str,
        subject: &str,
        site: MatchSite<'i>,
    ) -> Result<bool, OutOfMemory>
        ensures answer { Yields result (matches_in self.old (M.matching matcher.now) (a_pair pattern.now subject.now)) }
        ensures met { OnOk result (self.new.remembered
            ≡ asked_in self.old (M.matching matcher.now) (a_pair pattern.now subject.now) site.entry) }
        ensures frame { OnlyMatches self.old self.new }
        ensures unchanged { OnErr result (self.new ≡ self.old) }
    {
        match matcher.is_match(alloc, pattern, subject)? {
            Match::Finished(matches) => Ok(matches),
            Match::Unfinished(reason) => Ok(self.resolve(pattern, subject, reason, site)?),
        }
    }

    /// Returns the outcome of an unfinished match unless it must be remembered.
    ///
    /// If the result is `None`, the match has to be resolved with its site. `has_place` says
    /// whether that site has an instance path.
    pub fn known_outcome(&self, pattern: &str, subject: &str, has_place: bool) -> Option<bool>
        ensures answer { IfSome result (λ b. b ≡ assumed_in self.now (a_pair pattern.now subject.now)) }
        ensures nothing_new { OnSome result (AddsNothing self.now (a_pair pattern.now subject.now) has_place) }
    {
        self.matches.known_outcome(pattern, subject, has_place)
    }

    /// Returns the outcome of an unfinished match, and remembers the match.
    ///
    /// The outcome is the assumed one, or `false` without an assumption. The match is remembered
    /// with its site.
    ///
    /// # Errors
    ///
    /// Out of memory. Then nothing has changed.
    pub fn resolve(
        &mut self,
        pattern: &str,
        subject: &str,
        reason: Reason,
        site: MatchSite<'i>,
    ) -> Result<bool, OutOfMemory>
        ensures answer { Yields result (assumed_in self.old (a_pair pattern.now subject.now)) }
        ensures met { OnOk result (self.new.remembered ≡ met_in self.old (a_pair pattern.now subject.now) site.entry (reason_of reason)) }
        ensures frame { OnlyMatches self.old self.new }
        ensures unchanged { OnErr result (self.new ≡ self.old) }
    {
        Ok(self.matches.resolve(pattern, subject, reason, site)?)
    }

    // Returns whether no other node is in progress at the place.
    fn is_alone(&self, node: SchemaNode, place: usize) -> bool
        requires known { IsPlaceIn self.now place }
        ensures alone { result ≡ is_alone_at node.0 place self.now }
    {
        let count = count_at(self.counts.as_slice(), place);
        if count == 0 {
            return true;
        }
        if count != 1 {
            return false;
        }
        self.guard.has_bit(node.0, place)
    }

    /// Returns the remembered verdict of the node at the place.
    ///
    /// It does not depend on what is in progress there. Allocates nothing.
    pub fn remembered_verdict(&self, node: SchemaNode, place: usize) -> Option<bool>
        requires known { IsPlaceIn self.now place }
        ensures read { result ≡ verdict_at node.0 place self.now }
    {
        self.known.verdict_in(node.0, place)
    }

    /// Returns the remembered verdict, if it may be read.
    ///
    /// It may not be read if another node is in progress at the place. Allocates nothing.
    pub fn get_cached_result(&self, node: SchemaNode, place: usize) -> Option<bool>
        requires known { IsPlaceIn self.now place }
        ensures read { result ≡ read_at node.0 place self.now }
    {
        let found = self.remembered_verdict(node, place)?;
        if self.is_alone(node, place) {
            Some(found)
        } else {
            None
        }
    }

    /// Counts a visit to a guarded node.
    ///
    /// Returns the mark for `cache_result`, which is the number of earlier visits. The count
    /// saturates at `u64::MAX`. Allocates nothing.
    pub fn start_ref_visit(&mut self) -> u64
        ensures mark { result ≡ self.old.visits }
        ensures counted { self.new ≡ record self.old { visits = one_more self.old.visits } }
        ensures more { self.old.visits ≤ self.new.visits }
    {
        let mark = self.visits;
        self.visits = mark.saturating_add(1);
        mark
    }

    /// Returns the number of guarded visits. Allocates nothing.
    pub fn visits(&self) -> u64
        ensures visits { result ≡ self.now.visits }
    {
        self.visits
    }

    /// Remembers the verdict of the node at the place, if it was expensive.
    ///
    /// It is remembered if the instance is an array or an object, no other node is in progress at
    /// the place, and at least 16 visits were counted since the mark. Otherwise nothing changes.
    ///
    /// # Errors
    ///
    /// Out of memory. Then nothing has changed.
    pub fn cache_result(
        &mut self,
        node: SchemaNode,
        place: usize,
        instance: Instance<'i>,
        verdict: bool,
        mark: u64,
    ) -> Result<(), OutOfMemory>
        requires known { IsPlaceIn self.old place }
        ensures kept { OnOk result (MayKeepAt node.0 place instance.entry mark self.old
            → RemembersAt node.0 place verdict self.old self.new) }
        ensures others { OnOk result (¬ MayKeepAt node.0 place instance.entry mark self.old → self.new ≡ self.old) }
        ensures numbers { OnOk result (MayKeepAt node.0 place instance.entry mark self.old → Adds node.0 self.old.kept self.new.kept) }
        ensures few { OnOk result (FewRows self.new) }
        ensures wide { OnOk result (IsWide self.new) }
        ensures frame { OnlyVerdicts self.old self.new }
        ensures unchanged { OnErr result (self.new ≡ self.old) }
    {
        if self.visits.saturating_sub(mark) < MEMO_MIN_VISITS {
            return Ok(());
        }
        if !is_container(instance) {
            return Ok(());
        }
        if !self.is_alone(node, place) {
            return Ok(());
        }
        self.remember_verdict(node, place, verdict)?;
        Ok(())
    }

    /// Remembers the verdict of the node at the place.
    ///
    /// # Errors
    ///
    /// Out of memory. Then nothing has changed.
    pub fn remember_verdict(
        &mut self,
        node: SchemaNode,
        place: usize,
        verdict: bool,
    ) -> Result<(), OutOfMemory>
        requires known { IsPlaceIn self.old place }
        ensures kept { OnOk result (RemembersAt node.0 place verdict self.old self.new) }
        ensures numbers { OnOk result (Adds node.0 self.old.kept self.new.kept) }
        ensures few { OnOk result (FewRows self.new) }
        ensures wide { OnOk result (IsWide self.new) }
        ensures frame { OnlyVerdicts self.old self.new }
        ensures unchanged { OnErr result (self.new ≡ self.old) }
    {
        let words = row_words(self.places.numbered(self.alloc)?.len());
        self.known.make_row(self.alloc, node.0, 2 * words)?;
        self.known.put_bit(node.0, 0, place, true);
        self.known.put_bit(node.0, words, place, verdict);
        Ok(())
    }

    /// Forgets all verdicts and visits, for a new run. Allocates nothing.
    pub fn forget_verdicts(&mut self)
        ensures forgotten { self.new ≡ forgetting self.old }
        ensures wide { IsWide self.new }
    {
        self.known.clear();
        self.visits = 0;
    }

    /// Returns a path, continued by a keyword's name and the rest.
    ///
    /// The path is always the one that `EvaluationPath::of_keyword` returns. Once many paths under
    /// references were requested, they are cached. The context stays the same as contracts see it.
    ///
    /// # Errors
    ///
    /// Out of memory.
    pub fn evaluation_path(
        &mut self,
        alloc: Global,
        path: &EvaluationPath<'_>,
        name: &str,
        rest: &str,
    ) -> Result<Location, OutOfMemory>
        ensures path { GivesPath path.now name.now rest.now result }
        ensures stays { self.new ≡ self.old }
    {
        self.kept_paths.evaluation_path(alloc, path, name, rest)
    }

    /// Returns the texts of a node's unit, for the node's path and location.
    ///
    /// The context stays the same as contracts see it.
    ///
    /// # Errors
    ///
    /// Out of memory.
    pub fn node_texts(
        &mut self,
        alloc: Global,
        path: &EvaluationPath<'_>,
        location: &Location,
    ) -> Result<UnitTexts, OutOfMemory>
        ensures path { HasPath result (path_of path.now) }
        ensures schema { HasSchema result location.now }
        ensures under { IsUnder result (is_under_reference path.now) }
        ensures stays { self.new ≡ self.old }
    {
        self.unit_paths.of_node(alloc, path, location)
    }

    /// Returns the texts of a keyword's unit, for its node's path and location.
    ///
    /// The context stays the same as contracts see it.
    ///
    /// # Errors
    ///
    /// Out of memory.
    pub fn keyword_texts(
        &mut self,
        alloc: Global,
        path: &EvaluationPath<'_>,
        name: &str,
        location: &Location,
    ) -> Result<UnitTexts, OutOfMemory>
        ensures path { HasPath result (joined (path_of path.now) name.now) }
        ensures schema { HasSchema result (joined location.now name.now) }
        ensures stays { self.new ≡ self.old }
    {
        self.unit_paths.of_keyword(alloc, path, name, location)
    }

    /// Returns the path of a keyword with this name after a path.
    ///
    /// The context stays the same as contracts see it.
    ///
    /// # Errors
    ///
    /// Out of memory.
    pub fn keyword_path(
        &mut self,
        alloc: Global,
        path: &EvaluationPath<'_>,
        name: &str,
    ) -> Result<SharedLocation, OutOfMemory>
        ensures path { Yields result (joined (path_of path.now) name.now) }
        ensures stays { self.new ≡ self.old }
    {
        self.unit_paths.path_of_keyword(alloc, path, name)
    }

    /// Returns whether the matcher accepts the string as an ECMA-262 pattern.
    ///
    /// # Errors
    ///
    /// Out of memory.
    pub fn is_valid_ecma_regex<M: Matcher>(
        &self,
        alloc: Global,
        matcher: &M,
        pattern: &str,
    ) -> Result<bool, OutOfMemory>
        ensures valid { Yields result ((M.matching matcher.now).is_ecma pattern.now) }
    {
        matcher.is_valid_ecma_regex(alloc, pattern)
    }
}
