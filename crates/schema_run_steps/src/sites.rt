//! The sites of matches.
ghost use Rattle.std.specs.Prelude.{◌≡◌, ◌++◌, IfOk, map};
ghost use Rattle.schema_traits.specs.Showing.{Yields};
ghost use Rattle.schema_reports.specs.InstanceViews.{step_of};
ghost use Rattle.theory_definitions.specs.Pointer.{joined};
ghost use Rattle.schema_traits.specs.KeywordViews.{below_of, point_of, spot_below, spot_of, spot_point};
ghost use Rattle.schema_run_steps.specs.PlaceWords.{HasSteps, path_here, place_under};
ghost use Rattle.schema_run_steps.specs.MatchWords.{AsksInside, plain_point, site_here};

use crate::question::Question;
use crate::spots::{own_steps, place_below, step_below};
use schema_node_table::{KeywordName, Node};
use schema_reports::{InstanceStep, Location, OutOfMemory, Place};
use schema_run_context::path_from;
use schema_traits::{Below, MatchPoint, Spot};
use std::alloc::Global;
use unfinished_matches::MatchSite;

// Returns the evaluation path of a keyword with this name and what follows, and the place some
// steps below the question's own.
fn spot_place<'i>(
    alloc: Global,
    question: &Question<'_, 'i>,
    name: &str,
    path: &str,
    below: &[InstanceStep<'_>],
) -> Result<(Location, Place<'i>), OutOfMemory>
    requires present { HasSteps question.now.instance below.now }
    ensures path { IfOk result (λ r. r.0 ≡ joined (path_here question.now) name.now ++ path.now) }
    ensures place { IfOk result (λ r. r.1 ≡ place_under question.now.place.now below.now) }
{
    let place = place_inside(alloc, question, below)?;
    Ok((question.path.of_keyword(alloc, name, path)?, place))
}

// Returns the place some steps below the question's own, with names that the instance owns.
fn place_inside<'i>(
    alloc: Global,
    question: &Question<'_, 'i>,
    below: &[InstanceStep<'_>],
) -> Result<Place<'i>, OutOfMemory>
    requires present { HasSteps question.now.instance below.now }
    ensures place { Yields result (place_under question.now.place.now below.now) }
{
    let own = own_steps(alloc, question.instance, below)?;
    place_below(question.place, own.as_slice())
}

// Returns a site without a pattern. `path` follows the keyword's name, and `below` leads on from
// its place.
fn bare_site<'i, K>(
    alloc: Global,
    node: &Node<K>,
    name: &str,
    question: &Question<'_, 'i>,
    located: bool,
    path: &str,
    below: &[InstanceStep<'_>],
) -> Result<MatchSite<'i>, OutOfMemory>
    requires present { HasSteps question.now.instance below.now }
    ensures site { Yields result (site_here node.now name.now question.now (plain_point located path.now below.now)) }
{
    let schema_path = path_from(alloc, &node.location, name, path)?;
    if !located {
        return Ok(MatchSite::schema(schema_path));
    }
    let (evaluation_path, place) = spot_place(alloc, question, name, path, below)?;
    Ok(MatchSite::located(schema_path, evaluation_path, place))
}

// Returns the steps of a spot, and the step below it.
fn steps_at<'s>(
    alloc: Global,
    spot: &Spot<'s>,
    below: Below<'s>,
) -> Result<Vec<InstanceStep<'s>>, OutOfMemory>
    ensures steps { IfOk result (λ steps. map step_of steps.items ≡ (spot_below (spot_of spot.now) (below_of below.entry)).below) }
{
    let mut steps = Vec::from_slice(alloc, spot.below.as_slice())?;
    if let Some(step) = step_below(below) {
        steps.push(step)?;
    }
    Ok(steps)
}

// Returns the site of a match that is requested at a spot, or one step below it.
fn spot_site<'i, 's, K>(
    alloc: Global,
    node: &Node<K>,
    name: &KeywordName,
    question: &Question<'_, 'i>,
    located: bool,
    spot: &Spot<'s>,
    below: Below<'s>,
) -> Result<MatchSite<'i>, OutOfMemory>
    requires present { AsksInside question.now.instance (spot_point located spot.now below) }
    ensures site { IfOk result (λ s. s ≡ site_here node.now name.now question.now
        (spot_point located spot.now below.entry)) }
{
    let name = match &spot.absorbed {
        Some(absorbed) => absorbed.as_str(),
        None => name.as_str(),
    };
    let path = spot.path.as_str();
    let steps = steps_at(alloc, spot, below)?;
    let site = bare_site(alloc, node, name, question, located, path, steps.as_slice())?;
    match &spot.pattern {
        Some(pattern) => Ok(site.pattern(alloc, pattern.as_str())?),
        None => Ok(site),
    }
}

/// Returns the site of a match that a keyword of the node requests.
///
/// # Errors
///
/// Out of memory.
pub fn match_site<'i, K>(
    alloc: Global,
    node: &Node<K>,
    name: &KeywordName,
    question: &Question<'_, 'i>,
    pattern: &str,
    point: MatchPoint<'_>,
) -> Result<MatchSite<'i>, OutOfMemory>
    requires present { AsksInside question.now.instance (point_of pattern.now point) }
    ensures site { Yields result (site_here node.now name.now question.now (point_of pattern.now point.entry)) }
{
    match point {
        MatchPoint::AtKeyword(located) => {
            let site = bare_site(alloc, node, name.as_str(), question, located, "", &[])?;
            Ok(site.pattern(alloc, pattern)?)
        }
        MatchPoint::AtSpot(located, spot, below) => {
            spot_site(alloc, node, name, question, located, spot, below)
        }
    }
}
