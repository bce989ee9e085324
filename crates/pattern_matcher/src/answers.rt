//! Whether a pattern matches somewhere in a text.
ghost use Rattle.std.specs.Prelude.{◌≡◌, ℕ, Some, chars, true};
ghost use Rattle.pattern_trees.specs.Matching.{found};
ghost use Rattle.pattern_trees.specs.Nodes.{node_of};
ghost use Rattle.pattern_trees.specs.Trees.{pattern_of};
ghost use Rattle.pattern_sets.specs.Alike.{AreAlike};
ghost use Rattle.schema_reports.specs.Showing.{Shows, Yields};
ghost use Rattle.unfinished_matches.specs.MatchViews.{match_of};
ghost use Rattle.pattern_matcher.specs.PatternMatching.{decided_match, is_plain, readable_match, referring_match};
ghost use Rattle.pattern_matcher.specs.ReadViews.{reading_seen};

use crate::reading::{chars_of, copy_ascii};
use pattern_backtracking::find_within;
use pattern_reader::Pattern;
use pattern_sets::matches;
use pattern_trees::Tree;
use schema_reports::{OutOfMemory, Text};
use std::alloc::{AllocError, Global};
use unfinished_matches::{Match, Reason};

// How many characters a text may have that is matched without memory.
const SHORT: usize = 64;

const LIMIT_TEXT: &str = "Error executing regex: Max limit for backtracking count exceeded";

// Returns whether a pattern without back references matches, by a tree that matches alike.
fn plain_found(
    alloc: Global,
    pattern: &Pattern,
    prepared: &Tree,
    text: &[char],
) -> Result<bool, OutOfMemory>
    requires plain { is_plain (node_of pattern.now.tree) ≡ true }
    requires alike { AreAlike (pattern_of (node_of pattern.now.tree)) (pattern_of (node_of prepared.now)) }
    ensures found { Yields result (found (node_of pattern.now.tree) pattern.now.groups text.now) }
{
    let found = matches(alloc, prepared, text)?;
    Ok(found)
}

// Returns whether a pattern matches, however many steps that takes.
//
// After 2^64 steps the call is out of memory.
fn found(alloc: Global, pattern: &Pattern, text: &[char]) -> Result<bool, OutOfMemory>
    ensures found { Yields result (found (node_of pattern.now.tree) pattern.now.groups text.now) }
{
    match find_within(
        alloc,
        &pattern.tree,
        pattern.groups as usize,
        text,
        u64::MAX,
    )? {
        Some(found) => Ok(found),
        None => Err(AllocError {}),
    }
}

// Returns the match of a search that may have been left at its limit.
fn decided_match(alloc: Global, decided: Option<bool>) -> Result<Match, OutOfMemory>
    ensures decided { Shows match_of result (decided_match decided) }
{
    match decided {
        Some(found) => Ok(Match::Finished(found)),
        None => {
            let text = Text::new(alloc, LIMIT_TEXT)?;
            Ok(Match::Unfinished(Reason::Limit(text)))
        }
    }
}

// Returns the match of a pattern with a back reference.
fn referring_match(
    alloc: Global,
    limit: Option<u64>,
    pattern: &Pattern,
    text: &[char],
) -> Result<Match, OutOfMemory>
    ensures answer { Shows match_of result (referring_match limit (reading_seen pattern.now) text.now) }
{
    match limit {
        Some(limit) => {
            let decided = find_within(alloc, &pattern.tree, pattern.groups as usize, text, limit)?;
            decided_match(alloc, decided)
        }
        None => Ok(Match::Finished(found(alloc, pattern, text)?)),
    }
}

// Returns the match of a pattern and the characters of a text.
//
// The caller knows whether the pattern is plain.
fn readable_match(
    alloc: Global,
    limit: Option<u64>,
    plain: bool,
    pattern: &Pattern,
    prepared: &Tree,
    text: &[char],
) -> Result<Match, OutOfMemory>
    requires plain { plain ≡ is_plain (node_of pattern.now.tree) }
    requires alike { AreAlike (pattern_of (node_of pattern.now.tree)) (pattern_of (node_of prepared.now)) }
    ensures answer { Shows match_of result (readable_match limit (reading_seen pattern.now) text.now) }
{
    if plain {
        return Ok(Match::Finished(plain_found(alloc, pattern, prepared, text)?));
    }
    referring_match(alloc, limit, pattern, text)
}

/// Returns the match of a pattern and a text.
///
/// The caller knows whether the pattern is plain, and a tree that matches alike.
///
/// # Errors
///
/// Out of memory. Without a limit, also if a match takes 2^64 steps.
pub fn text_match(
    alloc: Global,
    limit: Option<u64>,
    plain: bool,
    pattern: &Pattern,
    prepared: &Tree,
    subject: &str,
) -> Result<Match, OutOfMemory>
    requires plain { plain ≡ is_plain (node_of pattern.now.tree) }
    requires alike { AreAlike (pattern_of (node_of pattern.now.tree)) (pattern_of (node_of prepared.now)) }
    ensures answer { Shows match_of result (readable_match limit (reading_seen pattern.now) (chars subject.now)) }
{
    let mut buffer = ['\0'; SHORT];
    if copy_ascii(&mut buffer, subject) {
        let text = &buffer[..subject.len()];
        return readable_match(alloc, limit, plain, pattern, prepared, text);
    }
    let text = chars_of(alloc, subject)?;
    readable_match(alloc, limit, plain, pattern, prepared, text.as_slice())
}
