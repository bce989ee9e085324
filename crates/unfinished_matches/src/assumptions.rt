//! What a run assumes and remembers of the unfinished matches that it meets.
ghost use Rattle.std.specs.Prelude.{◌≡◌, ◌∷◌, [], IfOk, IfSome, IsTrue, OnErr, OnOk, is_some, map, nat_eq, OnSome};
ghost use Rattle.schema_reports.specs.Showing.{Yields};
ghost use Rattle.std.specs.HashMap.{get};
ghost use Rattle.unfinished_matches.specs.HashIndex.{IsIndexed, match_hash};
ghost use Rattle.theory_definitions.specs.Matching.{assumed};
ghost use Rattle.theory_definitions.specs.Matching as matching;
ghost use Rattle.theory_definitions.specs.Runs.{Site};
ghost use Rattle.unfinished_matches.specs.MatchViews.{failed_at, met_at, outcome_of, pair_of, reason_of};
ghost use Rattle.theory_definitions.specs.Unfinished.{FirstIsNew, first_unassumed, is_known, meet, meet_known, starting};

use crate::located::LocatedMatches;
use crate::positions::{add_position, match_hash};
use crate::site::{LocatedMatch, MatchFailure, MatchSite, Reason, UnfinishedMatch};
use schema_reports::OutOfMemory;
use std::alloc::{AllocError, Global};
use std::collections::HashMap;
use std::marker::Model;

/// An unfinished match, and its assumed outcome.
#[derive(Drop)]
struct AssumedMatch {
    unfinished: UnfinishedMatch,
    matches: bool,
}

impl Model for AssumedMatch {
    ghost use Rattle.theory_definitions.specs.Matching.{Assumed};

    ghost Value = { Assumed };

    ghost view = { λ a. record { pair = a.unfinished; outcome = a.matches } };
}

impl Clone for AssumedMatch {
    ghost is_clone = { λ a copy. copy ≡ a };

    fn clone(&self) -> Result<AssumedMatch, AllocError> {
        let unfinished = self.unfinished.clone()?;
        Ok(AssumedMatch {
            unfinished,
            matches: self.matches,
        })
    }
}

/// The assumed outcomes of some unfinished matches, the latest first.
#[derive(Drop)]
pub struct AssumedOutcomes {
    matches: Vec<AssumedMatch>,
}

impl Model for AssumedOutcomes {
    ghost use Rattle.std.specs.Prelude.{List};
    ghost use Rattle.theory_definitions.specs.Matching.{Assumed};

    ghost Value = { List Assumed };

    ghost view = { λ a. a.matches.items };
}

impl AssumedOutcomes {
    /// Returns an empty list: nothing is assumed.
    pub fn new(alloc: Global) -> AssumedOutcomes
        ensures { result ≡ [] }
    {
        AssumedOutcomes {
            matches: Vec::new(alloc),
        }
    }

    /// Returns the start of a run that assumes these outcomes.
    pub fn start<'i>(&self, alloc: Global) -> Result<MatchAssumptions<'i>, OutOfMemory>
        ensures starts { Yields result (starting self.now) }
    {
        let assumed = IndexedOutcomes::new(alloc, self.clone()?)?;
        Ok(MatchAssumptions::assuming(alloc, assumed))
    }

    /// Returns the list with the assumed outcome of one more match.
    pub fn with(
        self,
        unfinished: UnfinishedMatch,
        matches: bool,
    ) -> Result<AssumedOutcomes, OutOfMemory>
        ensures { Yields result (record { pair = unfinished; outcome = matches } ∷ self) }
    {
        let mut list = self.matches;
        let first = AssumedMatch {
            unfinished,
            matches,
        };
        match list.insert(0, first) {
            Ok(()) => Ok(AssumedOutcomes { matches: list }),
            Err(_) => Err(AllocError),
        }
    }
}

impl Clone for AssumedOutcomes {
    ghost is_clone = { λ a copy. copy ≡ a };

    fn clone(&self) -> Result<AssumedOutcomes, AllocError> {
        Ok(AssumedOutcomes {
            matches: self.matches.clone()?,
        })
    }
}

fn assumed_outcome(list: &[AssumedMatch], pattern: &str, subject: &str) -> Option<bool>
    ensures { result ≡ assumed list.now (pair_of pattern.now subject.now) }
{
    for (i, one) in list.iter().enumerate() {
        if one.unfinished.is(pattern, subject) {
            return Some(one.matches);
        }
    }
    None
}

/// Assumed outcomes, indexed by the hash of their match. Contracts see the list.
#[derive(Drop)]
struct IndexedOutcomes {
    matches: Vec<AssumedMatch>,
    // The first position of each hash.
    positions: HashMap<u64, usize>,
}

impl Model for IndexedOutcomes {
    ghost use Rattle.std.specs.Prelude.{List, map, nat_eq};
    ghost use Rattle.std.specs.HashMap.{get};
    ghost use Rattle.theory_definitions.specs.Matching.{Assumed};
    ghost use Rattle.unfinished_matches.specs.HashIndex.{IsIndexed, match_hash};

    ghost Value = { List Assumed };

    ghost view = { λ o. o.matches.items };

    ghost invariant = { λ o. IsIndexed (map (λ a. match_hash a.pair) o.matches.items) (get nat_eq o.positions) };
}

// Returns the positions of these outcomes by the hashes of their matches.
fn indexed(alloc: Global, list: &[AssumedMatch]) -> Result<HashMap<u64, usize>, OutOfMemory>
    ensures indexed { IfOk result (λ p. IsIndexed (map (λ a. match_hash a.pair) list.now) (get nat_eq p)) }
{
    let mut positions = HashMap::new(alloc);
    for (i, one) in list.iter().enumerate() {
        add_position(&mut positions, one.unfinished.hash(), i)?;
    }
    Ok(positions)
}

impl IndexedOutcomes {
    fn none(alloc: Global) -> IndexedOutcomes
        ensures { result ≡ [] }
    {
        IndexedOutcomes {
            matches: Vec::new(alloc),
            positions: HashMap::new(alloc),
        }
    }

    fn new(alloc: Global, outcomes: AssumedOutcomes) -> Result<IndexedOutcomes, OutOfMemory>
        ensures same { Yields result outcomes }
    {
        let matches = outcomes.matches;
        match indexed(alloc, &matches) {
            Ok(positions) => Ok(IndexedOutcomes { matches, positions }),
            Err(error) => {
                drop(matches);
                Err(error)
            }
        }
    }

    fn outcome(&self, pattern: &str, subject: &str) -> Option<bool>
        ensures assumed { result ≡ assumed self.now (pair_of pattern.now subject.now) }
    {
        if self.matches.is_empty() {
            return None;
        }
        match self.positions.get(&match_hash(pattern, subject)) {
            Some(position) => {
                let one = &self.matches[*position];
                if one.unfinished.is(pattern, subject) {
                    Some(one.matches)
                } else {
                    assumed_outcome(&self.matches, pattern, subject)
                }
            }
            None => None,
        }
    }

    fn into_outcomes(self) -> AssumedOutcomes
        ensures { result ≡ self }
    {
        AssumedOutcomes {
            matches: self.matches,
        }
    }
}

/// What a run assumes and remembers of unfinished matches.
///
/// It remembers the first unfinished match whose outcome is not assumed, and for each match the
/// first site with an instance path.
#[derive(Drop)]
pub struct MatchAssumptions<'i> {
    alloc: Global,
    assumed: IndexedOutcomes,
    unassumed: Option<MatchFailure<'i>>,
    located: LocatedMatches<'i>,
}

impl<'i> Model for MatchAssumptions<'i> {
    ghost use Rattle.theory_definitions.specs.Unfinished.{FirstIsNew, Remembered};

    ghost Value = { Remembered };

    ghost view = { λ a. record { assumptions = a.assumed; unassumed = a.unassumed; located = a.located } };

    ghost invariant = { λ a. FirstIsNew (record { assumptions = a.assumed; unassumed = a.unassumed; located = a.located }) };
}

impl<'i> MatchAssumptions<'i> {
    /// Returns the start of a call's first run, which assumes nothing.
    ///
    /// Allocates nothing.
    pub fn new(alloc: Global) -> MatchAssumptions<'i>
        ensures starts { result ≡ starting [] }
    {
        MatchAssumptions::assuming(alloc, IndexedOutcomes::none(alloc))
    }

    fn assuming(alloc: Global, assumed: IndexedOutcomes) -> MatchAssumptions<'i>
        ensures starts { result ≡ starting assumed }
    {
        MatchAssumptions {
            alloc,
            assumed,
            unassumed: None,
            located: LocatedMatches::new(alloc),
        }
    }

    /// Returns the assumptions, the first match without one, and the located sites.
    ///
    /// A located site is one with an instance path.
    pub fn into_parts(
        self,
    ) -> (
        AssumedOutcomes,
        Option<MatchFailure<'i>>,
        Vec<LocatedMatch<'i>>,
    )
        ensures assumed { result.0 ≡ self.entry.assumptions }
        ensures unassumed { result.1 ≡ self.entry.unassumed }
        ensures located { result.2.items ≡ self.entry.located }
        ensures is_new { FirstIsNew self.entry }
    {
        (
            self.assumed.into_outcomes(),
            self.unassumed,
            self.located.into_vec(),
        )
    }
}

// Keeps the failure if no outcome of its match is assumed and none has been kept yet.
fn keep_first<'i>(
    kept: &mut Option<MatchFailure<'i>>,
    outcome: Option<bool>,
    failure: MatchFailure<'i>,
)
    ensures { kept.new ≡ first_unassumed kept.old outcome failure.entry }
{
    if outcome.is_none() && kept.is_none() {
        drop(kept.replace(failure));
    } else {
        drop(failure);
    }
}

impl<'i> MatchAssumptions<'i> {
    /// Returns whether the match is known to be unfinished.
    ///
    /// It is known if its outcome is assumed, if it was the first match without an assumed outcome,
    /// or if a site of it is remembered.
    pub fn is_unfinished(&self, pattern: &str, subject: &str) -> bool
        ensures known { result ≡ is_known self.now (pair_of pattern.now subject.now) }
    {
        if self.assumed.outcome(pattern, subject).is_some() {
            return true;
        }
        if let Some(first) = &self.unassumed {
            if first.unfinished().is(pattern, subject) {
                return true;
            }
        }
        self.located.contains(pattern, subject)
    }

    /// Returns whether the run met an unfinished match without an assumed outcome.
    pub fn met_unassumed(&self) -> bool
        ensures met { result ≡ is_some self.now.unassumed }
    {
        self.unassumed.is_some()
    }

    /// Returns the outcome of an unfinished match, if nothing is left to remember.
    ///
    /// `None` means that it has to be resolved with its site. `has_place` says whether that site
    /// has an instance path. Allocates nothing.
    pub fn known_outcome(&self, pattern: &str, subject: &str, has_place: bool) -> Option<bool>
        ensures answer { IfSome result (λ b. b ≡ outcome_of self.now.assumptions pattern.now subject.now) }
        ensures nothing_new { OnSome result ((site : Site) (reason : matching.Reason) → is_some site.located ≡ has_place
            → meet self.now (failed_at pattern.now subject.now site reason) ≡ self.now) }
    {
        let outcome = self.assumed.outcome(pattern, subject);
        if outcome.is_none() && self.unassumed.is_none() {
            return None;
        }
        if has_place && !self.located.contains(pattern, subject) {
            return None;
        }
        Some(outcome.unwrap_or(false))
    }

    /// Returns the outcome of an unfinished match, and remembers its site.
    ///
    /// The outcome is the assumed one, or `false` if none is assumed. On `Err` nothing has changed.
    pub fn resolve(
        &mut self,
        pattern: &str,
        subject: &str,
        reason: Reason,
        site: MatchSite<'i>,
    ) -> Result<bool, OutOfMemory>
        ensures answer { Yields result (outcome_of self.old.assumptions pattern.now subject.now) }
        ensures ok { OnOk result (self.new ≡ meet self.old (failed_at pattern.now subject.now site.entry (reason_of reason))) }
        ensures err { OnErr result (self.new ≡ self.old) }
    {
        let failure = MatchFailure::met(self.alloc, pattern, subject, reason, site)?;
        match self
            .located
            .note(self.alloc, pattern, subject, failure.site())
        {
            Ok(()) => {
                let outcome = self.assumed.outcome(pattern, subject);
                keep_first(&mut self.unassumed, outcome, failure);
                Ok(outcome.unwrap_or(false))
            }
            Err(error) => {
                drop(failure);
                Err(error)
            }
        }
    }

    /// Like `resolve`, for a match that is known to be unfinished.
    ///
    /// The matcher need not be asked again, so no reason is given.
    pub fn resolve_unfinished(
        &mut self,
        pattern: &str,
        subject: &str,
        site: MatchSite<'i>,
    ) -> Result<bool, OutOfMemory>
        requires known { IsTrue (is_known self.old (pair_of pattern.now subject.now)) }
        ensures answer { Yields result (outcome_of self.old.assumptions pattern.now subject.now) }
        ensures ok { OnOk result (self.new ≡ meet_known self.old (met_at pattern.now subject.now site.entry)) }
        ensures err { OnErr result (self.new ≡ self.old) }
    {
        let noted = self.located.note(self.alloc, pattern, subject, &site);
        drop(site);
        noted?;
        match self.assumed.outcome(pattern, subject) {
            Some(matches) => Ok(matches),
            None => Ok(false),
        }
    }
}
