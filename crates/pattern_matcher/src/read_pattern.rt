//! A text and the pattern that it is read as.
ghost use Rattle.std.specs.Prelude.{◌≡◌, IfOk, option_map};
ghost use Rattle.schema_reports.specs.Showing.{Shows, Yields};
ghost use Rattle.unfinished_matches.specs.MatchViews.{match_of};
ghost use Rattle.pattern_matcher.specs.PatternMatching.{is_readable, match_by, plain_in, refers};
ghost use Rattle.pattern_matcher.specs.ReadViews.{IsPrepared, reading_seen};

use crate::answers::text_match;
use crate::plain::is_plain;
use crate::reading::read_pattern;
use crate::treatment::Treatment;
use pattern_reader::Pattern;
use pattern_sets::prepare;
use pattern_trees::Tree;
use schema_reports::OutOfMemory;
use std::alloc::Global;
use std::marker::Model;
use unfinished_matches::Match;

/// A text and the pattern that it is read as, or no pattern if it is unreadable.
#[derive(Drop)]
pub struct ReadPattern {
    source: String,
    pattern: Option<Pattern>,
    // Matches as the pattern does, and is walked faster.
    prepared: Tree,
    is_plain: bool,
}

impl Model for ReadPattern {
    ghost use Rattle.std.specs.Prelude.{◌≡◌, option_map, string_bytes};
    ghost use Rattle.theory_definitions.specs.Instance.{Text};
    ghost use Rattle.pattern_matcher.specs.PatternMatching.{plain_in, reading_of};
    ghost use Rattle.pattern_matcher.specs.ReadViews.{IsPrepared, reading_seen};

    ghost Value = { Text };

    ghost view = { λ p. string_bytes p.source };

    ghost invariant = { λ p. (option_map reading_seen p.pattern ≡ reading_of (string_bytes p.source))
        × (p.is_plain ≡ plain_in (option_map reading_seen p.pattern))
        × IsPrepared p.pattern p.prepared };
}

impl ReadPattern {
    /// Reads a text. An unreadable text is no error.
    ///
    /// # Errors
    ///
    /// Out of memory.
    pub fn new(alloc: Global, source: &str) -> Result<ReadPattern, OutOfMemory>
        ensures source { Yields result source.now }
    {
        let text = String::from_str(alloc, source)?;
        let pattern = read_pattern(alloc, source)?;
        let is_plain = is_plain_in(&pattern);
        let prepared = prepared_of(alloc, &pattern)?;
        Ok(ReadPattern {
            source: text,
            pattern,
            prepared,
            is_plain,
        })
    }

    /// Returns the text.
    pub fn source(&self) -> &str
        ensures source { result.now ≡ self.now }
    {
        self.source.as_str()
    }

    /// Returns whether the text is readable.
    pub fn is_readable(&self) -> bool
        ensures readable { result ≡ is_readable self.now }
    {
        self.pattern.is_some()
    }

    /// Returns whether the text is readable, and has a back reference.
    pub fn refers(&self) -> bool
        ensures refers { result ≡ refers self.now }
    {
        !self.is_plain
    }

    /// Returns the match of the pattern and a subject.
    ///
    /// # Errors
    ///
    /// Out of memory. Without a limit, also if a match takes 2^64 steps.
    pub fn match_of(
        &self,
        alloc: Global,
        treatment: Treatment,
        subject: &str,
    ) -> Result<Match, OutOfMemory>
        ensures answer { Shows match_of result (match_by treatment self.now subject.now) }
    {
        match &self.pattern {
            Some(pattern) => text_match(
                alloc,
                treatment.limit,
                self.is_plain,
                pattern,
                &self.prepared,
                subject,
            ),
            None => Ok(treatment.unreadable.answer()),
        }
    }
}

// Returns a tree that matches as what was read does, and is walked faster.
fn prepared_of(alloc: Global, pattern: &Option<Pattern>) -> Result<Tree, OutOfMemory>
    ensures prepared { IfOk result (λ t. IsPrepared pattern.now t) }
{
    match pattern {
        Some(pattern) => Ok(prepare(alloc, &pattern.tree)?),
        None => Ok(Tree::Nothing),
    }
}

// Returns whether what was read has no back reference; so it is of an unreadable text.
fn is_plain_in(pattern: &Option<Pattern>) -> bool
    ensures plain { result ≡ plain_in (option_map reading_seen pattern.now) }
{
    match pattern {
        Some(pattern) => is_plain(&pattern.tree),
        None => true,
    }
}

/// Returns whether a text is a readable pattern.
///
/// # Errors
///
/// Out of memory.
pub fn is_readable(alloc: Global, text: &str) -> Result<bool, OutOfMemory>
    ensures readable { Yields result (is_readable text.now) }
{
    let pattern = read_pattern(alloc, text)?;
    Ok(pattern.is_some())
}
