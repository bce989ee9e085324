//! The patterns of documents, each read once.
ghost use Rattle.std.specs.Prelude.{◌≡◌, [], IfSome, OnErr, OnOk, is_some, map};
ghost use Rattle.std.specs.List.{list_any};
ghost use Rattle.schema_reports.specs.Showing.{Yields};
ghost use Rattle.serde_json.specs.View.{view};
ghost use Rattle.pattern_matcher.specs.PatternMatching.{careful, is_unreadable, limit_for, readable_only, refers};
ghost use Rattle.pattern_matcher.specs.PatternTables.{distinct, has, with_text};
ghost use Rattle.pattern_matcher.specs.SchemaPatterns.{patterns_of};

use crate::documents::patterns_of;
use crate::read_pattern::ReadPattern;
use crate::treatment::{Treatment, Unreadable};
use schema_reports::OutOfMemory;
use serde_json::Value;
use std::alloc::Global;
use std::collections::HashMap;
use std::marker::Model;

const STEP_LIMIT: u64 = 1_000_000;

/// A table of patterns, each read once.
///
/// Contracts see the list of their texts, in the order in which they were added.
#[derive(Drop)]
pub struct Patterns {
    read: Vec<ReadPattern>,
    // Maps each text to its place in the list.
    places: HashMap<String, usize>,
}

impl Model for Patterns {
    ghost use Rattle.std.specs.Prelude.{List};
    ghost use Rattle.std.specs.HashMap.{get_by_text};
    ghost use Rattle.theory_definitions.specs.Instance.{Text};
    ghost use Rattle.pattern_matcher.specs.PatternTables.{IsPlaced};

    ghost Value = { List Text };

    ghost view = { λ p. p.read.items };

    ghost invariant = { λ p. IsPlaced p.read.items (get_by_text p.places) };
}

impl Patterns {
    /// Makes an empty table.
    pub fn new(alloc: Global) -> Patterns
        ensures { result ≡ [] }
    {
        Patterns {
            read: Vec::new(alloc),
            places: HashMap::new(alloc),
        }
    }

    /// Reads the patterns in documents.
    ///
    /// These are each text under a member `pattern`, and each member's name under a member
    /// `patternProperties`, anywhere in the documents. An unreadable pattern is no error.
    ///
    /// # Errors
    ///
    /// Out of memory.
    pub fn for_schemas(alloc: Global, documents: &[&Value]) -> Result<Patterns, OutOfMemory>
        ensures patterns { Yields result (distinct (patterns_of (map (λ d. view d.now) documents.now))) }
    {
        let texts = patterns_of(alloc, documents)?;
        let mut patterns = Patterns::new(alloc);
        for text in texts.as_slice() {
            patterns.add(alloc, text.as_str())?;
        }
        Ok(patterns)
    }

    /// Reads a pattern, if it is not in the table.
    ///
    /// # Errors
    ///
    /// Out of memory. The table is then unchanged.
    pub fn add(&mut self, alloc: Global, pattern: &str) -> Result<(), OutOfMemory>
        ensures added { OnOk result (self.new ≡ with_text self.old pattern.now) }
        ensures kept { OnErr result (self.new ≡ self.old) }
    {
        if self.places.contains_key(pattern) {
            return Ok(());
        }
        let read = ReadPattern::new(alloc, pattern)?;
        let name = String::from_str(alloc, pattern)?;
        self.read.reserve(1)?;
        self.places.insert(name, self.read.len())?;
        self.read.push(read)?;
        Ok(())
    }

    /// Returns what a text was read as, if it is in the table.
    pub fn find(&self, pattern: &str) -> Option<&ReadPattern>
        ensures found { is_some result ≡ has pattern.now self.now }
        ensures same { IfSome result (λ p. p.now ≡ pattern.now) }
    {
        let place = self.places.get(pattern).copied()?;
        self.read.get(place)
    }

    fn has_unreadable(&self) -> bool
        ensures unreadable { result ≡ list_any is_unreadable self.now }
    {
        for read in self.read.as_slice() {
            if !read.is_readable() {
                return true;
            }
        }
        false
    }

    fn has_referring(&self) -> bool
        ensures refers { result ≡ list_any refers self.now }
    {
        for read in self.read.as_slice() {
            if read.refers() {
                return true;
            }
        }
        false
    }

    // Returns how many steps a match of a pattern with a back reference may take.
    fn limit(&self) -> Option<u64>
        ensures limit { result ≡ limit_for self.now }
    {
        if self.has_referring() {
            Some(STEP_LIMIT)
        } else {
            None
        }
    }

    /// Returns the treatment that leaves a match unfinished only if a pattern asks for it.
    ///
    /// Matches of unreadable patterns are left unfinished if the table has one. A match with a back
    /// reference takes at most a million steps if the table has a pattern with one.
    pub fn treatment(&self) -> Treatment
        ensures careful { result ≡ careful self.now }
    {
        let unreadable = if self.has_unreadable() {
            Unreadable::LeftUnfinished
        } else {
            Unreadable::MatchesNothing
        };
        Treatment {
            unreadable,
            limit: self.limit(),
        }
    }

    /// Returns the treatment for schemas whose unreadable patterns are refused.
    ///
    /// It is that of `treatment`, except that unreadable patterns match nothing.
    pub fn readable_only(&self) -> Treatment
        ensures readable { result ≡ readable_only self.now }
    {
        Treatment {
            unreadable: Unreadable::MatchesNothing,
            limit: self.limit(),
        }
    }
}
