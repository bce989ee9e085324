//! Validators of compiled nodes.
//!
//! The clauses about meaning and units assume that the nodes were compiled from the root's key. A
//! caller who cannot show this may still call, but gets nothing from those clauses.
ghost use Rattle.std.specs.Prelude.{◌≡◌, ◌<◌, ◌≤◌, IfOk, length};
ghost use Rattle.schema_drafts.specs.KeywordViews.{draft_of};
ghost use Rattle.schema_validator.specs.Called.{HasUnitsAsCompiled, MeansAsCompiled};
ghost use Rattle.schema_validator.specs.CallWords.{IsMadeOf};
ghost use Rattle.schema_validator.specs.Handed.{handed};

use crate::validator::{CallLimits, Validator};
use schema_drafts::Draft;
use schema_node_table::Nodes;
use schema_reports::OutOfMemory;
use schema_solver::Solver;
use schema_traits::{KeywordTable, Matcher, Resolver, SchemaNode, Validate};

/// Builds a validator from compiled nodes and a clone of the matcher.
///
/// `root` is the number of a key's node. The validator means that key, if the nodes are compiled
/// from it and no chain of references returns.
///
/// # Errors
///
/// Out of memory.
pub(crate) fn of_compiled_within<S: Resolver, T: KeywordTable<K>, K: Validate, M: Matcher>(
    table: &T,
    resolver: &S,
    matcher: &M,
    nodes: Nodes<K>,
    root: SchemaNode,
    draft: Draft,
    limits: CallLimits,
    finder: Solver,
) -> Result<Validator<K, M>, OutOfMemory>
    requires inside { root.0 < length nodes }
    requires limit { 1 ≤ limits.runs }
    ensures made { IfOk result (IsMadeOf nodes root.0 (draft_of draft)) }
    ensures runs { IfOk result (λ v. v.runs ≡ limits.runs) }
    ensures work { IfOk result (λ v. v.work ≡ limits.work) }
    ensures depth { IfOk result (λ v. v.depth ≡ limits.depth) }
    ensures solver { IfOk result (λ v. v.followed ≡ finder) }
    ensures matcher { IfOk result (λ v. M.matching v.matcher ≡ M.matching matcher.now) }
    ensures finishing { IfOk result (λ v. M.finishing v.matcher ≡ M.finishing matcher.now) }
    ensures means { IfOk result (MeansAsCompiled (handed S.Resolver T.KeywordTable K.Validate M.Matcher.own
        resolver.now table.now matcher.now) nodes root.0) }
    ensures units { IfOk result (HasUnitsAsCompiled (handed S.Resolver T.KeywordTable K.Validate M.Matcher.own
        resolver.now table.now matcher.now) nodes root.0) }
{
    let matcher = matcher.clone()?;
    Ok(Validator::of_nodes_within(nodes, root, draft, matcher, limits, finder))
}
