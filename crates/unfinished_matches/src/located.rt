//! The matches that a run met at sites with an instance path, indexed by hash.
ghost use Rattle.std.specs.Prelude.{◌≡◌, ◌++◌, ◌∷◌, [], OnErr, OnOk, is_some, nat_eq};
ghost use Rattle.unfinished_matches.specs.MatchViews.{met_at, pair_of};
ghost use Rattle.theory_definitions.specs.Unfinished.{noted, site_of};

use crate::positions::{match_hash, reserve_next};
use crate::site::{LocatedMatch, MatchSite, place_of};
use schema_reports::OutOfMemory;
use std::alloc::Global;
use std::collections::HashMap;
use std::marker::Model;

/// Matches at sites, in the order in which they were met.
///
/// Contracts see the list.
#[derive(Drop)]
pub struct LocatedMatches<'i> {
    matches: Vec<LocatedMatch<'i>>,
    // The first position of each hash.
    positions: HashMap<u64, usize>,
}

impl<'i> Model for LocatedMatches<'i> {
    ghost use Rattle.std.specs.Prelude.{List, map, nat_eq};
    ghost use Rattle.std.specs.HashMap.{get};
    ghost use Rattle.theory_definitions.specs.Runs.{Met};
    ghost use Rattle.unfinished_matches.specs.HashIndex.{IsIndexed, match_hash};

    ghost Value = { List Met };

    ghost view = { λ l. l.matches.items };

    ghost invariant = { λ l. IsIndexed (map (λ m. match_hash m.pair) l.matches.items) (get nat_eq l.positions) };
}

impl<'i> LocatedMatches<'i> {
    /// Returns an empty list.
    pub fn new(alloc: Global) -> LocatedMatches<'i>
        ensures none { result ≡ [] }
    {
        LocatedMatches {
            matches: Vec::new(alloc),
            positions: HashMap::new(alloc),
        }
    }

    /// Returns the matches, in order.
    pub fn into_vec(self) -> Vec<LocatedMatch<'i>>
        ensures same { result.items ≡ self.entry }
    {
        self.matches
    }

    /// Returns whether a site of this match is in the list.
    pub fn contains(&self, pattern: &str, subject: &str) -> bool
        ensures has { result ≡ is_some (site_of self.now (pair_of pattern.now subject.now)) }
    {
        if self.matches.is_empty() {
            return false;
        }
        match self.positions.get(&match_hash(pattern, subject)) {
            Some(position) => {
                self.matches[*position].unfinished().is(pattern, subject)
                    || place_of(&self.matches, pattern, subject).is_some()
            }
            None => false,
        }
    }

    /// Records the match at this site, if it is the first with an instance path.
    ///
    /// On `Err` nothing has changed.
    pub fn note(
        &mut self,
        alloc: Global,
        pattern: &str,
        subject: &str,
        site: &MatchSite<'i>,
    ) -> Result<(), OutOfMemory>
        ensures ok { OnOk result (self.new ≡ noted self.old (met_at pattern.now subject.now site.now)) }
        ensures err { OnErr result (self.new ≡ self.old) }
    {
        if !site.has_place() || self.contains(pattern, subject) {
            return Ok(());
        }
        self.push(LocatedMatch::met(alloc, pattern, subject, site)?)
    }

    fn push(&mut self, met: LocatedMatch<'i>) -> Result<(), OutOfMemory>
        ensures pushed { OnOk result (self.new ≡ self.old ++ met.entry ∷ []) }
        ensures unchanged { OnErr result (self.new ≡ self.old) }
    {
        let hash = met.unfinished().hash();
        match reserve_next(&mut self.matches, &mut self.positions, hash) {
            Ok(()) => {
                self.matches.push(met)?;
                Ok(())
            }
            Err(error) => {
                drop(met);
                Err(error)
            }
        }
    }
}
