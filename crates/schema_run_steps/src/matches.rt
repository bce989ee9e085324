//! The matches that a keyword requests.
//!
//! A match whose outcome is known needs no site. No site is built for it, since building and
//! dropping one took a third of a search over many texts.
ghost use Rattle.std.specs.Prelude.{◌≡◌, IfOk, OnOk};
ghost use Rattle.theory_definitions.specs.Instance.{Text};
ghost use Rattle.theory_definitions.specs.Matching.{finished};
ghost use Rattle.schema_traits.specs.KeywordViews.{point_of};
ghost use Rattle.schema_traits.specs.MatcherViews.{FinishesEach};
ghost use Rattle.schema_run_context.specs.Progress.{OnlyMatches};
ghost use Rattle.schema_run_context.specs.RunMatches.{a_pair, matches_in};
ghost use Rattle.schema_run_steps.specs.MatchWords.{AsksInside, AsksMatch, OfMatch};

use crate::question::{Engine, Question};
use crate::sites::match_site;
use schema_node_table::{KeywordName, Node};
use schema_reports::OutOfMemory;
use schema_run_context::ValidationContext;
use schema_traits::{MatchPoint, Matcher, Step};
use std::alloc::Global;
use unfinished_matches::Match;

/// Returns the outcome of a match, from a matcher that finishes every match.
///
/// # Errors
///
/// Out of memory.
// Not inlined, so that a keyword without a match does not pay for its stack frame.
#[inline(never)]
pub fn finished_match<M: Matcher>(
    alloc: Global,
    matcher: &M,
    pattern: &str,
    subject: &str,
) -> Result<bool, OutOfMemory>
    requires finishes { FinishesEach (M.matching matcher.now) }
    ensures answer { IfOk result (λ b. (M.matching matcher.now).is_match pattern.now subject.now ≡ finished b) }
{
    match matcher.is_match(alloc, pattern, subject)? {
        Match::Finished(matches) => Ok(matches),
        Match::Unfinished(_) => unreachable!(),
    }
}

// Returns whether the site of a match at this point has an instance path.
fn has_place(point: MatchPoint<'_>) -> bool
    ensures located { (pattern : Text) → result ≡ (point_of pattern point.entry).located }
{
    match point {
        MatchPoint::AtKeyword(located) => located,
        MatchPoint::AtSpot(located, _, _) => located,
    }
}

// Returns the outcome of a match that a keyword of the node requests. The site is built only if the
// matcher leaves the match unfinished and the run has something to remember about it.
#[tactic(auto, using(crate::proofs::MatchSites::shown))]
fn asked_match<'i, K, M: Matcher>(
    engine: &Engine<'_, K, M>,
    node: &Node<K>,
    name: &KeywordName,
    question: &Question<'_, 'i>,
    pattern: &str,
    subject: &str,
    point: MatchPoint<'_>,
    context: &mut ValidationContext<'i>,
) -> Result<bool, OutOfMemory>
    requires present { AsksInside question.now.instance (point_of pattern.now point) }
    ensures answer { IfOk result (λ b. b ≡ matches_in context.old (M.matching engine.now.matcher.now) (a_pair pattern.now subject.now)) }
    ensures met { OnOk result (AsksMatch node.now name.now question.now (M.matching engine.now.matcher.now) context.old context.new
        (a_pair pattern.now subject.now) (point_of pattern.now point.entry)) }
    ensures frame { OnlyMatches context.old context.new }
{
    match engine.matcher.is_match(engine.alloc, pattern, subject)? {
        Match::Finished(matches) => Ok(matches),
        Match::Unfinished(reason) => {
            if let Some(matches) = context.known_outcome(pattern, subject, has_place(point)) {
                drop(reason);
                return Ok(matches);
            }
            let site = match_site(engine.alloc, node, name, question, pattern, point)?;
            Ok(context.resolve(pattern, subject, reason, site)?)
        }
    }
}

/// Returns the outcome of the match that a step of a keyword requests.
///
/// If the step requests no match, the result is `false`.
///
/// # Errors
///
/// Out of memory.
// Not inlined, so that a turn without a match does not pay for its stack frame.
#[inline(never)]
pub fn step_match<'i, K, M: Matcher>(
    engine: &Engine<'_, K, M>,
    node: &Node<K>,
    name: &KeywordName,
    question: &Question<'_, 'i>,
    step: Step<'_>,
    context: &mut ValidationContext<'i>,
) -> Result<bool, OutOfMemory>
    requires present { OfMatch step (λ _ point. AsksInside question.now.instance point) }
    ensures answer { IfOk result (λ b. OfMatch step.entry (λ a _. b ≡ matches_in context.old (M.matching engine.now.matcher.now) a)) }
    ensures met { OnOk result (OfMatch step.entry (AsksMatch node.now name.now question.now (M.matching engine.now.matcher.now)
        context.old context.new)) }
    ensures frame { OnlyMatches context.old context.new }
{
    match step {
        Step::Match(pattern, subject, located) => {
            let point = MatchPoint::AtKeyword(located);
            asked_match(
                engine, node, name, question, pattern, subject, point, context,
            )
        }
        Step::MatchAt(at, subject, below) => {
            let point = MatchPoint::AtSpot(at.located, &at.spot, below);
            let pattern = at.pattern.as_str();
            asked_match(
                engine, node, name, question, pattern, subject, point, context,
            )
        }
        _ => Ok(false),
    }
}
