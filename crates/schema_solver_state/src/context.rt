//! The state of a solver: pairs in progress or assumed, and known verdicts.
//!
//! One call, `keep_answer`, decides what happens to a pair. So the proof of that call fails if it
//! forgets a verdict, or settles one that depends on an assumption. The context on which a verdict
//! depends counts the pairs that were begun. A call that returned the number itself could return a
//! smaller one.
ghost use Rattle.std.specs.Prelude.{◌≡◌, ◌<◌, ◌≤◌, []};
ghost use Rattle.std.specs.Prelude.{All, IfOk, IfSome, None, OnErr, OnOk, false, true, ℕ};
ghost use Rattle.std.specs.Prelude.{length, take};
ghost use Rattle.std.specs.Borrow.{sem};
ghost use Rattle.std.specs.List.{list_any};
ghost use Rattle.schema_traits.specs.Showing.{Yields};
ghost use Rattle.theory_definitions.specs.Runs.{with_mark, without_last};
ghost use Rattle.schema_places.specs.Numbers.{NumbersAll, OwnNumbers};
ghost use Rattle.schema_traits.specs.KeywordViews.{marked_of};
ghost use Rattle.schema_run_context.specs.Rows.{AreWide};
ghost use Rattle.serde_json.specs.View.{view};
ghost use Rattle.schema_solver_state.specs.Contexts.{solver_places};
ghost use Rattle.schema_solver_state.specs.ContextViews.{ClearsBits, HaveBits, HoldVerdicts, KeepsVerdict, SettlesPairs};
ghost use Rattle.schema_solver_state.specs.Answering.{IsApart, KeepsRest, OnlyMarks, OnlyPairs, fresh};
ghost use Rattle.schema_solver_state.specs.AtNumbers.{FoundAt, HasOwnNumbers, IsAloneAt, IsBesideAt, IsFreeAt, IsIdleAt, IsKnown, IsLastAt};
ghost use Rattle.schema_solver_state.specs.AtNumbers.{AcceptsAt, AssumesAt, AssumesBesideAt, BeginsAt, IsUnknownAt, LeavesAt, RefusesAt};
ghost use Rattle.schema_solver_state.specs.AtNumbers.{RemembersAt, SettlesAt, SettlesBesideAt, same_mark};

use crate::said::Said;
use schema_places::{Places, PlacesOnDemand};
use schema_reports::OutOfMemory;
use schema_run_context::{
    Marks, NumberedPair, Rows, count_at, make_counts, push_within, row_words,
};
use schema_traits::{Edge, Marked, SchemaNode};
use std::alloc::Global;
use std::marker::Model;
use std::mem;

/// What a solver has found so far. One run has one context.
///
/// It holds the pairs of a node and a place that are in progress, the last one entered last, and no
/// pair twice; the pairs that are assumed to be valid; the verdicts that are known; the marks of
/// the keyword's run at work; and how many pairs were begun.
///
/// Places are identified by their numbers, which are assigned when the first is needed. The pairs
/// in progress are a row of bits for each node that was entered, and a count for each place. The
/// assumed pairs are a row of bits for each node. The verdicts of a node are two rows, one of the
/// places with a known verdict, and one of the verdicts.
#[derive(Drop)]
pub struct SolverContext<'i> {
    alloc: Global,
    places: PlacesOnDemand<'i>,
    pairs: Vec<NumberedPair>,
    counts: Vec<usize>,
    guard: Rows,
    assumed: Vec<NumberedPair>,
    yeses: Rows,
    known: Rows,
    marking: Marks,
    begun: u64,
}

impl<'i> Model for SolverContext<'i> {
    ghost use Rattle.schema_run_context.specs.Progress.{root_places};
    ghost use Rattle.schema_run_context.specs.ProgressViews.{all_verdicts};
    ghost use Rattle.schema_solver_state.specs.Contexts.{Solver};
    ghost use Rattle.schema_solver_state.specs.ContextViews.{SolverHolds, pairs_at};
    ghost use Rattle.serde_json.specs.contracts.value.Value as value;
    ghost use Rattle.std.specs.Coded.{codes};

    ghost Value = { Solver };

    ghost coded = { Prim.hlevel (codes, value.the_row.coded) };

    ghost view = { λ c. record {
      root = c.places;
      in_progress = pairs_at (root_places c.places) c.pairs.items;
      assumed = pairs_at (root_places c.places) c.assumed.items;
      verdicts = all_verdicts (root_places c.places) c.known;
      marking = c.marking;
      begun = c.begun;
    } };

    ghost invariant = { λ c. SolverHolds (root_places c.places) c.pairs.items c.counts.items c.guard c.assumed.items c.yeses c.known };
}

// The room for pairs that is reserved when the first is entered. With references that return, most
// instances are no deeper than that.
const FIRST_PAIRS: usize = 32;

// Returns how many more pairs to reserve room for, if there are this many.
fn room_after(pairs: usize) -> usize
    ensures some { 1 ≤ result }
{
    if pairs == 0 { FIRST_PAIRS } else { 1 }
}

// Returns a provisional "valid".
fn for_now() -> Said
    ensures yes { result ≡ record { valid = true; leans = true } }
{
    Said::of(true, true)
}

// States that each number is the one of the place that has it. Does nothing when it runs.
fn assert_own_numbers(places: &Places<'_>)
    ensures own { OwnNumbers places.now }
{
    places.len();
}

// Remembers the verdict of a pair; there are `places` places. On `Err` nothing has changed.
fn keep_verdict(
    alloc: Global,
    known: &mut Rows,
    places: usize,
    node: usize,
    place: usize,
    verdict: bool,
) -> Result<(), OutOfMemory>
    requires within { place < places }
    requires wide { HoldVerdicts places known.old }
    ensures kept { OnOk result (KeepsVerdict places node place verdict known.old known.new) }
    ensures wide { HoldVerdicts places known.new }
    ensures unchanged { OnErr result (known.new ≡ known.old) }
{
    let words = row_words(places);
    known.make_row(alloc, node, 2 * words)?;
    known.put_bit(node, 0, place, true);
    known.put_bit(node, words, place, verdict);
    Ok(())
}

// Remembers "valid" for each of these pairs; there are `places` places. On `Err` some may be
// remembered.
fn settle_all(
    alloc: Global,
    known: &mut Rows,
    places: usize,
    pairs: &[NumberedPair],
) -> Result<(), OutOfMemory>
    requires within { All (λ e. e.place < places) pairs.now }
    requires wide { HoldVerdicts places known.old }
    ensures settled { OnOk result (SettlesPairs places pairs.now known.old known.new) }
    ensures wide { HoldVerdicts places known.new }
{
    for pair in pairs {
        keep_verdict(alloc, known, places, pair.node.0, pair.place, true)?;
    }
    Ok(())
}

fn clear_bits(rows: &mut Rows, pairs: &[NumberedPair])
    requires there { HaveBits pairs.now rows.old }
    ensures cleared { ClearsBits pairs.now rows.old rows.new }
    ensures wide { (w : ℕ) → AreWide w rows.old → AreWide w rows.new }
{
    for pair in pairs {
        rows.put_bit(pair.node.0, 0, pair.place, false);
    }
}

impl<'i> SolverContext<'i> {
    ghost use Rattle.schema_solver_state.specs.Lending.{EndsAs};

    /// Returns a context at these places, with nothing found and no pair begun.
    pub fn new(alloc: Global, places: PlacesOnDemand<'i>) -> SolverContext<'i>
        ensures empty { result ≡ fresh places.entry }
    {
        SolverContext {
            alloc,
            places,
            pairs: Vec::new(alloc),
            counts: Vec::new(alloc),
            guard: Rows::new(alloc),
            assumed: Vec::new(alloc),
            yeses: Rows::new(alloc),
            known: Rows::new(alloc),
            marking: Marks::new(alloc),
            begun: 0,
        }
    }

    /// Returns the numbered places.
    ///
    /// They are numbered at the first call, or when the first pair is entered.
    ///
    /// # Errors
    ///
    /// Out of memory, and then nothing has changed.
    pub fn places(&mut self) -> Result<&Places<'i>, OutOfMemory>
        ensures places { IfOk result (λ ps. ps.now ≡ solver_places self.old) }
        ensures there { IfOk result (λ ps. NumbersAll (view self.old.root) ps.now) }
        ensures own { IfOk result (λ ps. OwnNumbers ps.now) }
        ensures* unchanged { sem 𝓛 (EndsAs self.entry self.old) }
    {
        let alloc = self.alloc;
        let places = &mut self.places;
        let numbered = places.numbered(alloc)?;
        assert_own_numbers(numbered);
        Ok(numbered)
    }

    /// Returns what is known of a pair.
    ///
    /// It is the known verdict, or a provisional "valid" if the pair is in progress or assumed, or
    /// nothing.
    pub fn state(&self, node: SchemaNode, place: usize) -> Option<Said>
        requires known { IsKnown place self.now }
        ensures known { IfSome result (FoundAt node place self.now) }
        ensures unknown { result ≡ None → IsUnknownAt node place self.now }
        ensures idle { result ≡ None → IsIdleAt node place self.now }
        ensures free { result ≡ None → IsFreeAt node place self.now }
    {
        if let Some(verdict) = self.known.verdict_in(node.0, place) {
            return Some(Said::settled(verdict));
        }
        if self.guard.has_bit(node.0, place) {
            return Some(for_now());
        }
        if self.yeses.has_bit(node.0, place) {
            return Some(for_now());
        }
        None
    }

    /// Enters a pair that is not in progress, and returns the mark for `keep_answer`.
    ///
    /// The pair counts as begun. The mark is the number of assumed pairs.
    ///
    /// # Errors
    ///
    /// Out of memory, and then nothing has changed.
    pub fn enter(&mut self, node: SchemaNode, place: usize) -> Result<usize, OutOfMemory>
        requires known { IsKnown place self.old }
        requires is_new { IsIdleAt node place self.old }
        ensures mark { Yields result (length self.old.assumed) }
        ensures begins { OnOk result (BeginsAt node place self.old self.new) }
        ensures unchanged { OnErr result (self.new ≡ self.old) }
    {
        let places = self.places.numbered(self.alloc)?.len();
        self.pairs.reserve(room_after(self.pairs.len()))?;
        make_counts(self.alloc, &mut self.counts, places)?;
        self.guard.make_row(self.alloc, node.0, row_words(places))?;
        push_within(&mut self.pairs, NumberedPair { node, place });
        self.guard.put_bit(node.0, 0, place, true);
        let count = self.counts[place];
        self.counts[place] = count + 1;
        self.begun = self.begun.saturating_add(1);
        Ok(self.assumed.len())
    }

    /// Removes the pair, which must be the last one entered.
    pub fn exit(&mut self, node: SchemaNode, place: usize)
        requires known { IsKnown place self.old }
        requires last { IsLastAt node place self.old }
        ensures left { LeavesAt node place self.old self.new }
        ensures frame { OnlyPairs self.old self.new }
    {
        self.pairs.pop();
        self.guard.put_bit(node.0, 0, place, false);
        let count = self.counts[place];
        self.counts[place] = count - 1;
    }

    fn is_idle(&self, place: usize) -> bool
        requires known { IsKnown place self.now }
        ensures none { result ≡ true → IsAloneAt place self.now }
        ensures some { result ≡ false → IsBesideAt place self.now }
    {
        count_at(self.counts.as_slice(), place) == 0
    }

    // Remembers the final verdict of a pair. On `Err` nothing has changed.
    fn remember(&mut self, node: SchemaNode, place: usize, verdict: bool) -> Result<(), OutOfMemory>
        requires known { IsKnown place self.old }
        ensures remembered { OnOk result (RemembersAt node place self.old self.new verdict) }
        ensures unchanged { OnErr result (self.new ≡ self.old) }
        ensures rest { KeepsRest self.old self.new }
        ensures assumed { self.new.assumed ≡ self.old.assumed }
    {
        let places = self.places.numbered(self.alloc)?.len();
        keep_verdict(self.alloc, &mut self.known, places, node.0, place, verdict)
    }

    // Drops the assumptions made since the mark; none of them was made before it too.
    fn drop_since(&mut self, mark: usize)
        requires own { HasOwnNumbers self.old }
        requires apart { IsApart mark self.old }
        ensures dropped { self.new.assumed ≡ take mark self.old.assumed }
        ensures rest { KeepsRest self.old self.new }
        ensures verdicts { self.new.verdicts ≡ self.old.verdicts }
    {
        if mark < self.assumed.len() {
            clear_bits(&mut self.yeses, &self.assumed[mark..]);
            self.assumed.truncate(mark);
        }
    }

    // Assumes that the pair is valid, after all other assumptions. On `Err` nothing has changed.
    fn assume(&mut self, node: SchemaNode, place: usize) -> Result<(), OutOfMemory>
        requires known { IsKnown place self.old }
        ensures pushed { OnOk result (AssumesAt node place self.old self.new) }
        ensures unchanged { OnErr result (self.new ≡ self.old) }
        ensures rest { KeepsRest self.old self.new }
        ensures verdicts { self.new.verdicts ≡ self.old.verdicts }
    {
        let places = self.places.numbered(self.alloc)?.len();
        self.assumed.reserve(1)?;
        self.yeses.make_row(self.alloc, node.0, row_words(places))?;
        push_within(&mut self.assumed, NumberedPair { node, place });
        self.yeses.put_bit(node.0, 0, place, true);
        Ok(())
    }

    // Remembers "valid" for the pair and for all that was assumed since the mark. On `Err` some may
    // be remembered.
    fn settle(&mut self, node: SchemaNode, place: usize, mark: usize) -> Result<(), OutOfMemory>
        requires known { IsKnown place self.old }
        ensures settled { OnOk result (SettlesAt node place self.old self.new mark) }
        ensures rest { KeepsRest self.old self.new }
        ensures assumed { self.new.assumed ≡ self.old.assumed }
    {
        let places = self.places.numbered(self.alloc)?.len();
        keep_verdict(self.alloc, &mut self.known, places, node.0, place, true)?;
        if mark < self.assumed.len() {
            settle_all(self.alloc, &mut self.known, places, &self.assumed[mark..])?;
        }
        Ok(())
    }

    /// Keeps the answer of a pair's node, and returns the answer of the pair.
    ///
    /// The pair has been left before. The mark is the one that `enter` returned; nothing that was
    /// assumed since may have been assumed before it too.
    ///
    /// An "invalid" is remembered, and what was assumed since the mark is dropped. A "valid" is
    /// remembered, with all that was assumed since, if no other pair is in progress at the place.
    /// Otherwise it alone is remembered if it is final, and assumed if it is provisional.
    ///
    /// # Errors
    ///
    /// Out of memory. Then nothing has changed if the answer was "invalid". If it was "valid", the
    /// assumptions are unchanged, and some of the verdicts may be remembered.
    pub fn keep_answer(
        &mut self,
        node: SchemaNode,
        place: usize,
        mark: usize,
        said: Said,
    ) -> Result<Said, OutOfMemory>
        requires known { IsKnown place self.old }
        requires own { HasOwnNumbers self.old }
        requires apart { IsApart mark self.old }
        ensures valid { IfOk result (λ now. now.valid ≡ said.valid) }
        ensures refused { IfOk result (λ now. said.valid ≡ false → RefusesAt node place self.old self.new mark) }
        ensures accepted { IfOk result (λ now. said.valid ≡ true → AcceptsAt node place self.old self.new mark said now) }
        ensures unchanged { OnErr result (said.valid ≡ false → self.new ≡ self.old) }
        ensures assumed { OnErr result (self.new.assumed ≡ self.old.assumed) }
        ensures rest { KeepsRest self.old self.new }
    {
        if !said.valid() {
            self.remember(node, place, false)?;
        } else if self.is_idle(place) {
            self.settle(node, place, mark)?;
        } else {
            return self.keep_beside(node, place, said);
        }
        self.drop_since(mark);
        Ok(Said::settled(said.valid()))
    }

    // Keeps a "valid" beside another pair in progress at the place: remembers it if it is final,
    // and assumes it if it is provisional. On `Err` nothing has changed.
    fn keep_beside(
        &mut self,
        node: SchemaNode,
        place: usize,
        said: Said,
    ) -> Result<Said, OutOfMemory>
        requires known { IsKnown place self.old }
        requires yes { said.valid ≡ true }
        requires beside { IsBesideAt place self.old }
        ensures same { Yields result said }
        ensures assumed { OnOk result (said.leans ≡ true → AssumesBesideAt node place self.old self.new) }
        ensures settled { OnOk result (said.leans ≡ false → SettlesBesideAt node place self.old self.new) }
        ensures unchanged { OnErr result (self.new ≡ self.old) }
        ensures rest { KeepsRest self.old self.new }
    {
        if said.leans() {
            self.assume(node, place)?;
        } else {
            self.remember(node, place, true)?;
        }
        Ok(said)
    }

    /// Marks this, and returns whether the keyword's run has marked it before.
    ///
    /// The same mark is the same request, or, by the edges of its children, a child that leads to
    /// the same number and is guarded alike.
    ///
    /// # Errors
    ///
    /// Out of memory, and then nothing has changed.
    pub fn enter_marking(
        &mut self,
        children: &[Option<Edge>],
        marked: Marked,
    ) -> Result<bool, OutOfMemory>
        ensures held { Yields result (list_any (same_mark children.now (marked_of marked)) self.old.marking) }
        ensures marks { OnOk result (self.new.marking ≡ with_mark (same_mark children.now) (marked_of marked) self.old.marking) }
        ensures unchanged { OnErr result (self.new ≡ self.old) }
        ensures frame { OnlyMarks self.old self.new }
    {
        self.marking.enter(children, marked)
    }

    /// Removes the last mark of the keyword's run at work, if it has one.
    pub fn exit_marking(&mut self)
        ensures left { self.new.marking ≡ without_last self.old.marking }
        ensures frame { OnlyMarks self.old self.new }
    {
        self.marking.exit();
    }

    /// Returns the marks, and leaves none, for a keyword's run that begins.
    pub fn set_aside(&mut self, alloc: Global) -> Marks
        ensures aside { result ≡ self.old.marking }
        ensures none { self.new.marking ≡ [] }
        ensures frame { OnlyMarks self.old self.new }
    {
        mem::replace(&mut self.marking, Marks::new(alloc))
    }

    /// Replaces the marks of the run that has ended by those set aside.
    pub fn put_back(&mut self, aside: Marks)
        ensures back { self.new.marking ≡ aside }
        ensures frame { OnlyMarks self.old self.new }
    {
        self.marking = aside;
    }

    /// Returns how many pairs were begun.
    ///
    /// The count stops at the greatest `u64`.
    pub fn begun(&self) -> u64
        ensures begun { result ≡ self.now.begun }
    {
        self.begun
    }
}
