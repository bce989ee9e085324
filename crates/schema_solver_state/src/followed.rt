//! The numbers that a solver inlines, and for which it remembers nothing.
//!
//! Any choice of these numbers is right, so cost alone decides. When only final numbers were
//! inlined, a tree cost 1.27 times as much.
ghost use Rattle.std.specs.Prelude.{◌≡◌, ◌∷◌, ◌<◌, ◌||◌, ◌&&◌, [], IfOk, false, length, nat_le, slice_index_or};
ghost use Rattle.schema_traits.specs.Showing.{Shows, Yields};
ghost use Rattle.schema_traits.specs.EdgeViews.{edge_of};
ghost use Rattle.schema_solver_state.specs.Following.{AreWays, Counts, Covers, IsFollowing, is_settled_in, table_edges};
ghost use Rattle.schema_solver_state.specs.Following.{child_edges, edges_of, entries_edges, entry_edges};

use crate::weights::{weight_of, weights_of};
use schema_node_table::{Entry, EntryForm, Node, NodeForm, Nodes};
use schema_reports::OutOfMemory;
use schema_traits::{Edge, SchemaNode};
use std::alloc::Global;
use std::marker::Model;

/// The greatest weight of an inlined number that several edges lead to.
///
/// Such a number is final. Its weight is how many nodes it takes at most to evaluate it.
pub const MOST_NODES: u8 = 254;

/// The numbers of nodes that a solver inlines.
///
/// The solver evaluates such a number each time that an unguarded edge leads to it. For the other
/// numbers it remembers the verdict at a place, until something that this depends on is refused.
/// The answers do not depend on which numbers are inlined, but the time does.
///
/// A number is inlined if at most one unguarded edge leads to it, or if it is final and takes at
/// most `MOST_NODES` nodes to evaluate with each edge followed once, so that finding its answer
/// again takes no more than that. Contracts see for each number whether it is inlined.
#[derive(Drop)]
pub struct Followed {
    numbers: Vec<bool>,
}

impl Model for Followed {
    ghost use Rattle.std.specs.Prelude.{Bool, List};

    ghost Value = { List Bool };

    ghost view = { λ f. f.numbers.items };
}

// Counts an unguarded edge as a way to its number, if that is one of these. At most two ways to a
// number are counted.
fn count_edge(edge: &Edge, ways: &mut Vec<u8>)
    ensures counted { Counts (edge_of edge.now ∷ []) ways.old.items ways.new.items }
{
    let number = edge.node.0;
    if !edge.guarded && number < ways.len() && ways[number] < 2 {
        ways[number] += 1;
    }
}

fn count_children(children: &[Option<Edge>], ways: &mut Vec<u8>)
    ensures counted { Counts (child_edges children.now) ways.old.items ways.new.items }
{
    for child in children {
        if let Some(edge) = child {
            count_edge(edge, ways);
        }
    }
}

fn count_entry<K: Drop>(entry: &Entry<K>, ways: &mut Vec<u8>)
    ensures counted { Counts (entry_edges entry.now) ways.old.items ways.new.items }
{
    match &entry.form {
        EntryForm::Reference(edge) => count_edge(edge, ways),
        EntryForm::Keyword(_, children) => count_children(children.as_slice(), ways),
    }
}

fn count_entries<K: Drop>(entries: &[Entry<K>], ways: &mut Vec<u8>)
    ensures counted { Counts (entries_edges entries.now) ways.old.items ways.new.items }
{
    for entry in entries {
        count_entry(entry, ways);
    }
}

fn count_node<K: Drop>(node: &Node<K>, ways: &mut Vec<u8>)
    ensures counted { Counts (edges_of node.now) ways.old.items ways.new.items }
{
    match &node.form {
        None => {}
        Some(form) => match form {
            NodeForm::Always => {}
            NodeForm::Never => {}
            NodeForm::Keywords(entries) => count_entries(entries.as_slice(), ways),
        },
    }
}

// Returns how many unguarded edges lead to each number of these nodes, but at most two for each.
fn count_ways<K: Drop>(alloc: Global, nodes: &Nodes<K>) -> Result<Vec<u8>, OutOfMemory>
    ensures size { IfOk result (λ ways. length ways.items ≡ length nodes.now) }
    ensures counted { IfOk result (λ ways. AreWays (table_edges nodes.now) ways.items) }
{
    let count = nodes.len();
    let mut ways = Vec::from_elem(alloc, 0u8, count)?;
    for number in 0..count {
        count_node(nodes.node(SchemaNode(number)), &mut ways);
    }
    Ok(ways)
}

// Returns weights of these nodes, which decide what is inlined. They are counted only if some
// number has two ways in. Otherwise the list is empty, which counts as `MANY` for each.
fn weights_by<K: Drop>(alloc: Global, nodes: &Nodes<K>, ways: &[u8]) -> Result<Vec<u8>, OutOfMemory>
    ensures covers { IfOk result (λ ws. Covers nodes.now ws.items) }
{
    if ways.iter().all(|count| *count <= 1) {
        return Ok(Vec::new(alloc));
    }
    weights_of(alloc, nodes)
}

// Returns whether a number with this many ways in and this weight is inlined.
fn is_followed_by<K: Drop>(nodes: &Nodes<K>, number: SchemaNode, ways: u8, weight: u8) -> bool
    requires within { number.0 < length nodes.now }
    ensures followed { result ≡ (nat_le ways 1 || (is_settled_in nodes.now number.0 && nat_le weight 254)) }
{
    ways <= 1 || (nodes.is_settled(number) && weight <= MOST_NODES)
}

impl Followed {
    /// Returns the numbers of these nodes that a solver inlines.
    ///
    /// # Errors
    ///
    /// Out of memory.
    pub fn of<K: Drop>(alloc: Global, nodes: &Nodes<K>) -> Result<Followed, OutOfMemory>
        ensures each { Shows length result (length nodes.now) }
        ensures followed { IfOk result (IsFollowing nodes.now) }
    {
        let ways = count_ways(alloc, nodes)?;
        let weights = weights_by(alloc, nodes, ways.as_slice())?;
        let count = ways.len();
        let mut numbers = Vec::with_capacity(alloc, count)?;
        for number in 0..count {
            let weight = weight_of(weights.as_slice(), number);
            numbers.push(is_followed_by(nodes, SchemaNode(number), ways[number], weight))?;
        }
        Ok(Followed { numbers })
    }

    /// Returns whether a number is inlined.
    ///
    /// The result is `false` if it is not one of these nodes.
    pub fn is_followed(&self, node: SchemaNode) -> bool
        ensures followed { result ≡ slice_index_or self.now node.0 false }
    {
        match self.numbers.get(node.0) {
            Some(followed) => *followed,
            None => false,
        }
    }

    /// Returns a clone.
    ///
    /// # Errors
    ///
    /// Out of memory.
    pub fn clone(&self) -> Result<Followed, OutOfMemory>
        ensures same { Yields result self.now }
    {
        let numbers = self.numbers.clone()?;
        Ok(Followed { numbers })
    }
}
