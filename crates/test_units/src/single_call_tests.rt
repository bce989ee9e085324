//! Public calls that no other crate makes, each once.
//!
//! A clause states the result of a call that succeeds, but not that it succeeds.
use schema_node_table::Nodes;
use schema_reports::{
    EvaluationNode, EvaluationResult, Location, OutOfMemory, SharedLocation, UnitReport,
};
use schema_traits::SchemaPath;
use serde_json::Value;
use std::alloc::Global;
use unfinished_matches::{MatchAssumptions, MatchSite, Reason};

/// Adds a node that refuses, and one that has no entry.
fn add_two(alloc: Global, nodes: &mut Nodes<usize>) -> Result<(), OutOfMemory> {
    let _never = nodes.from_boolean(Location::new(alloc), None, 0, false)?;
    let _empty = nodes.from_array(Location::new(alloc), None, 0, Vec::new(alloc))?;
    Ok(())
}

/// Returns how many nodes there are after `add_two`.
fn count_nodes(alloc: Global) -> Result<usize, OutOfMemory> {
    let mut nodes: Nodes<usize> = Nodes::new(alloc);
    let added = add_two(alloc, &mut nodes);
    let count = nodes.len();
    drop(nodes);
    added?;
    Ok(count)
}

/// Returns whether the result of one valid unit is valid.
fn is_valid_of_one(alloc: Global) -> Result<bool, OutOfMemory> {
    let root = SharedLocation::root(alloc)?;
    let unit = EvaluationNode {
        report: UnitReport {
            valid: true,
            evaluation_path: root.clone()?,
            absolute_keyword_location: None,
            schema_location: root.clone()?,
            instance_location: root,
            annotations: None,
            errors: Vec::new(alloc),
        },
        children: Vec::new(alloc),
    };
    let mut result = EvaluationResult::from_node(alloc, unit)?;
    result.annotate(Value::Null);
    Ok(result.is_valid())
}

/// Returns whether a match that was met is known, and answers no if met again.
fn comes_out_again(alloc: Global, met: &mut MatchAssumptions<'_>) -> Result<bool, OutOfMemory> {
    if !met.is_unfinished("p", "s") {
        return Ok(false);
    }
    let again = MatchSite::schema(Location::new(alloc));
    Ok(!met.resolve_unfinished("p", "s", again)?)
}

/// Returns whether a match is known after it has been met.
fn is_known_then(alloc: Global) -> Result<bool, OutOfMemory> {
    let mut met = MatchAssumptions::new(alloc);
    let site = MatchSite::schema(Location::new(alloc));
    let known = match met.resolve("p", "s", Reason::Engine, site) {
        Ok(_) => comes_out_again(alloc, &mut met),
        Err(failed) => Err(failed),
    };
    drop(met);
    known
}

#[test]
fn calls_succeed(rt: HostRuntime) -> Result<(), OutOfMemory> {
    let alloc = rt.alloc();
    assert_eq!(rt; count_nodes(alloc)?, 2);
    assert!(rt; is_valid_of_one(alloc)?);
    assert!(rt; is_known_then(alloc)?);
    assert_eq!(rt; SchemaPath::root(alloc).first(alloc, 1)?.len(), 0);
    Ok(())
}
