//! How many nodes it takes at most to evaluate a number with each edge followed.
ghost use Rattle.std.specs.Prelude.{◌≡◌, IfOk, length};
ghost use Rattle.schema_traits.specs.EdgeViews.{edge_of};
ghost use Rattle.schema_solver_state.specs.Following.{Covers, child_edges, edge_weight, edges_of, entries_edges, entry_edges};
ghost use Rattle.schema_solver_state.specs.Following.{weight_in, weight_together};

use schema_node_table::{Entry, EntryForm, Node, NodeForm, Nodes};
use schema_reports::OutOfMemory;
use schema_traits::{Edge, SchemaNode};
use std::alloc::Global;

/// The weight of a number that takes too many nodes to count.
///
/// A number that leads to a guarded edge has it too.
pub(crate) const MANY: u8 = 255;

/// Returns the weight of a number by these weights, or `MANY` if it has none.
pub(crate) fn weight_of(weights: &[u8], number: usize) -> u8
    ensures weight { result ≡ weight_in weights.now number }
{
    match weights.get(number) {
        Some(weight) => *weight,
        None => MANY,
    }
}

fn weigh_edge(edge: &Edge, weights: &[u8]) -> u8
    ensures weight { result ≡ edge_weight weights.now (edge_of edge.now) }
{
    if edge.guarded {
        return MANY;
    }
    weight_of(weights, edge.node.0)
}

fn weigh_children(children: &[Option<Edge>], weights: &[u8]) -> u8
    ensures weight { result ≡ weight_together weights.now (child_edges children.now) }
{
    let mut weight = 0u8;
    for child in children {
        if let Some(edge) = child {
            weight = weight.saturating_add(weigh_edge(edge, weights));
        }
    }
    weight
}

fn weigh_entry<K: Drop>(entry: &Entry<K>, weights: &[u8]) -> u8
    ensures weight { result ≡ weight_together weights.now (entry_edges entry.now) }
{
    match &entry.form {
        EntryForm::Reference(edge) => weigh_edge(edge, weights),
        EntryForm::Keyword(_, children) => weigh_children(children.as_slice(), weights),
    }
}

fn weigh_entries<K: Drop>(entries: &[Entry<K>], weights: &[u8]) -> u8
    ensures weight { result ≡ weight_together weights.now (entries_edges entries.now) }
{
    let mut weight = 0u8;
    for entry in entries {
        weight = weight.saturating_add(weigh_entry(entry, weights));
    }
    weight
}

fn weigh_node<K: Drop>(node: &Node<K>, weights: &[u8]) -> u8
    ensures weight { result ≡ weight_together weights.now (edges_of node.now) }
{
    match &node.form {
        None => 0,
        Some(form) => match form {
            NodeForm::Always => 0,
            NodeForm::Never => 0,
            NodeForm::Keywords(entries) => weigh_entries(entries.as_slice(), weights),
        },
    }
}

// Lowers the weight of each number to one more than its edges weigh together, if that is less, and
// returns whether a weight changed. Edges mostly lead to greater numbers, so the last comes first.
fn weigh_each<K: Drop>(nodes: &Nodes<K>, weights: &mut Vec<u8>) -> bool
    requires each { length weights.old.items ≡ length nodes.now }
    requires covers { Covers nodes.now weights.old.items }
    ensures each { length weights.new.items ≡ length nodes.now }
    ensures covers { Covers nodes.now weights.new.items }
{
    let mut changed = false;
    for number in (0..nodes.len()).rev() {
        let below = weigh_node(nodes.node(SchemaNode(number)), weights.as_slice());
        let weight = below.saturating_add(1);
        if weight < weights[number] {
            weights[number] = weight;
            changed = true;
        }
    }
    changed
}

// Returns the weight `MANY` for each number.
fn uncounted<K: Drop>(alloc: Global, nodes: &Nodes<K>) -> Result<Vec<u8>, OutOfMemory>
    ensures each { IfOk result (λ ws. length ws.items ≡ length nodes.now) }
    ensures covers { IfOk result (λ ws. Covers nodes.now ws.items) }
{
    let count = nodes.len();
    let weights = Vec::from_elem(alloc, MANY, count)?;
    Ok(weights)
}

/// Returns the weight of each number.
///
/// It is how many nodes it takes at most to evaluate the number with each edge followed, or `MANY`.
///
/// # Errors
///
/// Out of memory.
pub(crate) fn weights_of<K: Drop>(alloc: Global, nodes: &Nodes<K>) -> Result<Vec<u8>, OutOfMemory>
    ensures each { IfOk result (λ ws. length ws.items ≡ length nodes.now) }
    ensures covers { IfOk result (λ ws. Covers nodes.now ws.items) }
{
    let mut weights = uncounted(alloc, nodes)?;
    for _ in 0..MANY {
        if !weigh_each(nodes, &mut weights) {
            return Ok(weights);
        }
    }
    Ok(weights)
}
