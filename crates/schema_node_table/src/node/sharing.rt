//! Shared numbers, each of which a run may evaluate once a place.
//!
//! A number is shared if at least two edges lead to it, no guarded edge is reached from it, and its
//! evaluation takes many nodes. The answer of such a number at a place is the same whatever is in
//! progress there, so its verdict may be kept for the whole run. Lighter numbers are not shared,
//! because numbering the places would cost more than evaluating them again.
ghost use Rattle.std.specs.List.{list_all};
ghost use Rattle.std.specs.Prelude.{◌≡◌, ◌≤◌, ℕ, IfOk, Option, nat_le, option_map, slice_index_or, true};
ghost use Rattle.schema_traits.specs.EdgeViews.{edge_of};
ghost use Rattle.schema_node_table.specs.ClosedNumbers.{AreClosed, AreWeighed, ReachesNoGuard, child_closes, edge_closes, edges_in};
ghost use Rattle.schema_node_table.specs.ClosedNumbers.{form_closes, has_weight, node_closes};
ghost use Rattle.schema_node_table.specs.NodeViews.{form_of};
ghost use Rattle.schema_node_table.specs.declared.node.Entry.{Entry};
ghost use Rattle.schema_traits.specs.declared.numbers.Edge.{Edge};

use crate::node::{Entry, EntryForm, Node, NodeForm, Nodes};
use schema_reports::OutOfMemory;
use schema_traits::{Edge, SchemaNode};
use std::alloc::Global;

/// The weight of a shared number, which is the greatest weight.
///
/// A weight is the number of nodes evaluated for a number, if each edge is evaluated once.
const SHARED_WEIGHT: u8 = 255;

// The weight of a number; 0 if it has none.
fn weight_of(weights: &[u8], number: usize) -> u8
    ensures weight { result ≡ slice_index_or weights.now number 0 }
{
    match weights.get(number) {
        Some(weight) => *weight,
        None => 0,
    }
}

// Returns whether an edge is unguarded and leads to a number with a weight.
fn edge_closes(edge: &Edge, weights: &[u8]) -> bool
    ensures closes { result ≡ edge_closes (has_weight weights.now) (edge_of edge.now) }
{
    !edge.guarded && 1 <= weight_of(weights, edge.node.0)
}

// The same for a child's edge; a child without an edge passes.
fn child_closes(child: &Option<Edge>, weights: &[u8]) -> bool
    ensures closes { result ≡ child_closes (has_weight weights.now) (option_map edge_of child.now) }
{
    match child {
        Some(edge) => edge_closes(edge, weights),
        None => true,
    }
}

fn children_close(children: &[Option<Edge>], weights: &[u8]) -> bool
    ensures closes { result ≡ list_all (λ (o : Option Edge). child_closes (has_weight weights.now) (option_map edge_of o)) children.now }
{
    children.iter().all(|child| child_closes(child, weights))
}

fn entry_closes<K: Drop>(entry: &Entry<K>, weights: &[u8]) -> bool
    ensures closes { result ≡ form_closes (has_weight weights.now) (form_of entry.now.form) }
{
    match &entry.form {
        EntryForm::Reference(edge) => edge_closes(edge, weights),
        EntryForm::Keyword(_, children) => children_close(children.as_slice(), weights),
    }
}

fn entries_close<K: Drop>(entries: &[Entry<K>], weights: &[u8]) -> bool
    ensures closes { result ≡ list_all (λ (e : Entry K). form_closes (has_weight weights.now) (form_of e.form)) entries.now }
{
    entries.iter().all(|entry| entry_closes(entry, weights))
}

fn node_closes<K: Drop>(node: &Node<K>, weights: &[u8]) -> bool
    ensures closes { result ≡ node_closes weights.now node.now }
{
    match &node.form {
        None => true,
        Some(form) => match form {
            NodeForm::Always => true,
            NodeForm::Never => true,
            NodeForm::Keywords(entries) => entries_close(entries.as_slice(), weights),
        },
    }
}

// The sum of the weights that the children's edges lead to. All sums here saturate.
fn children_weight(children: &[Option<Edge>], weights: &[u8]) -> u8 {
    let mut weight = 0u8;
    for child in children {
        if let Some(edge) = child {
            weight = weight.saturating_add(weight_of(weights, edge.node.0));
        }
    }
    weight
}

fn entry_weight<K: Drop>(entry: &Entry<K>, weights: &[u8]) -> u8 {
    match &entry.form {
        EntryForm::Reference(edge) => weight_of(weights, edge.node.0),
        EntryForm::Keyword(_, children) => children_weight(children.as_slice(), weights),
    }
}

fn entries_weight<K: Drop>(entries: &[Entry<K>], weights: &[u8]) -> u8 {
    let mut weight = 0u8;
    for entry in entries {
        weight = weight.saturating_add(entry_weight(entry, weights));
    }
    weight
}

fn weight_below<K: Drop>(node: &Node<K>, weights: &[u8]) -> u8 {
    match &node.form {
        None => 0,
        Some(form) => match form {
            NodeForm::Always => 0,
            NodeForm::Never => 0,
            NodeForm::Keywords(entries) => entries_weight(entries.as_slice(), weights),
        },
    }
}

// The weight of a node: one more than the sum of the weights that its edges lead to; 0 if one of
// these is guarded or leads to a number without a weight.
fn node_weight<K: Drop>(node: &Node<K>, weights: &[u8]) -> u8
    ensures closes { 1 ≤ result → node_closes weights.now node.now ≡ true }
{
    if !node_closes(node, weights) {
        return 0;
    }
    weight_below(node, weights).saturating_add(1)
}

// The weight that a node has already, or else the one that it can get now.
fn next_weight<K: Drop>(node: &Node<K>, weights: &[u8], weight: u8) -> u8
    ensures kept { 1 ≤ weight → result ≡ weight }
    ensures closes { weight ≡ 0 → 1 ≤ result → node_closes weights.now node.now ≡ true }
{
    if 1 <= weight {
        return weight;
    }
    node_weight(node, weights)
}

// Weighs a number that has no weight yet, if it can have one.
fn weigh_number<K: Drop>(nodes: &Nodes<K>, number: usize, weights: &mut Vec<u8>)
    requires { AreWeighed nodes.now weights.old.items }
    ensures { AreWeighed nodes.now weights.new.items }
{
    if nodes.len() <= number {
        return;
    }
    let weight = weights[number];
    let next = next_weight(nodes.node(SchemaNode(number)), weights.as_slice(), weight);
    weights[number] = next;
}

fn weigh_in_turn<K: Drop>(nodes: &Nodes<K>, numbers: &[usize], weights: &mut Vec<u8>)
    requires { AreWeighed nodes.now weights.old.items }
    ensures { AreWeighed nodes.now weights.new.items }
{
    for number in numbers {
        weigh_number(nodes, *number, weights);
    }
}

// The round of the number at an index of these.
fn round_at<K: Drop>(nodes: &Nodes<K>, numbers: &[usize], at: usize) -> usize {
    let number = match numbers.get(at) {
        Some(number) => *number,
        None => return 0,
    };
    if nodes.len() <= number {
        return 0;
    }
    match nodes.node(SchemaNode(number)).round {
        Some(round) => round,
        None => 0,
    }
}

// Weighs the numbers round by round, the last round first; within a round, in their order.
fn weigh_rounds<K: Drop>(nodes: &Nodes<K>, numbers: &[usize], weights: &mut Vec<u8>)
    requires { AreWeighed nodes.now weights.old.items }
    ensures { AreWeighed nodes.now weights.new.items }
{
    let mut end = numbers.len();
    for start in (0..numbers.len()).rev() {
        if start == 0 || round_at(nodes, numbers, start - 1) != round_at(nodes, numbers, start) {
            let those = match numbers.get(start..end) {
                Some(those) => those,
                None => return,
            };
            weigh_in_turn(nodes, those, weights);
            end = start;
        }
    }
}

// The numbers in the order in which they got their forms.
fn in_order<K: Drop>(alloc: Global, nodes: &Nodes<K>) -> Result<Vec<usize>, OutOfMemory> {
    let count = nodes.len();
    let mut numbers = Vec::from_elem(alloc, 0usize, count)?;
    for number in 0..count {
        let node = nodes.node(SchemaNode(number));
        if node.form.is_some() {
            if let Some(place) = numbers.get_mut(node.order) {
                *place = number;
            }
        }
    }
    Ok(numbers)
}

fn unweighed<K: Drop>(alloc: Global, nodes: &Nodes<K>) -> Result<Vec<u8>, OutOfMemory>
    ensures { IfOk result (λ ws. AreWeighed nodes.now ws.items) }
{
    let count = nodes.len();
    let weights = Vec::from_elem(alloc, 0u8, count)?;
    Ok(weights)
}

// The weights of the closed numbers.
//
// An unguarded edge leads to a number of a lower rank, so numbers are weighed by rank: the final
// ones first, by their order, then the others, round by round, the last round first.
fn weights_of<K: Drop>(alloc: Global, nodes: &Nodes<K>) -> Result<Vec<u8>, OutOfMemory>
    ensures closed { IfOk result (λ ws. AreClosed (edges_in nodes.now) (has_weight ws.items)) }
{
    let mut weights = unweighed(alloc, nodes)?;
    let numbers = in_order(alloc, nodes)?;
    weigh_in_turn(nodes, numbers.as_slice(), &mut weights);
    weigh_rounds(nodes, numbers.as_slice(), &mut weights);
    Ok(weights)
}

// Counts an edge for the number that it leads to.
fn count_edge(edge: &Edge, ways: &mut Vec<u8>) {
    if let Some(count) = ways.get_mut(edge.node.0) {
        *count = count.saturating_add(1);
    }
}

fn count_children(children: &[Option<Edge>], ways: &mut Vec<u8>) {
    for child in children {
        if let Some(edge) = child {
            count_edge(edge, ways);
        }
    }
}

fn count_entry<K: Drop>(entry: &Entry<K>, ways: &mut Vec<u8>) {
    match &entry.form {
        EntryForm::Reference(edge) => count_edge(edge, ways),
        EntryForm::Keyword(_, children) => count_children(children.as_slice(), ways),
    }
}

fn count_node<K: Drop>(node: &Node<K>, ways: &mut Vec<u8>) {
    if let Some(form) = &node.form {
        if let NodeForm::Keywords(entries) = form {
            for entry in entries {
                count_entry(entry, ways);
            }
        }
    }
}

// The number of edges that lead to each number; counts stop at 255.
fn ways_of<K: Drop>(alloc: Global, nodes: &Nodes<K>) -> Result<Vec<u8>, OutOfMemory> {
    let count = nodes.len();
    let mut ways = Vec::from_elem(alloc, 0u8, count)?;
    for number in 0..count {
        count_node(nodes.node(SchemaNode(number)), &mut ways);
    }
    Ok(ways)
}

// The weight of a number to which this many edges lead: less than that of a shared number if there
// are fewer than two.
fn kept_weight(weight: u8, ways: u8) -> u8
    ensures kept { nat_le 1 result ≡ nat_le 1 weight }
{
    if weight == SHARED_WEIGHT && ways < 2 {
        return SHARED_WEIGHT - 1;
    }
    weight
}

// Lowers the weights of numbers that may not be shared, since fewer than two edges lead to them.
fn keep_shared(ways: &[u8], weights: &mut Vec<u8>)
    ensures same { (i : ℕ) → has_weight weights.new.items i ≡ has_weight weights.old.items i }
{
    for number in 0..weights.len() {
        let weight = kept_weight(weights[number], weight_of(ways, number));
        weights[number] = weight;
    }
}

impl<K: Drop> Nodes<K> {
    /// Determines which numbers are shared.
    ///
    /// A number is shared if at least two edges lead to it, no guarded edge is reached from it, and
    /// its evaluation takes at least 255 nodes if each edge is evaluated once. After another node
    /// is added, begun or filled, no number is shared.
    ///
    /// # Errors
    ///
    /// Out of memory. The shared numbers are then the same as before.
    pub fn share(&mut self, alloc: Global) -> Result<(), OutOfMemory>
        ensures same { self.new ≡ self.old }
    {
        let mut weights = weights_of(alloc, self)?;
        let ways = ways_of(alloc, self)?;
        keep_shared(ways.as_slice(), &mut weights);
        self.weights = weights;
        Ok(())
    }

    /// Returns `true` if the number is shared. Does not allocate.
    pub fn is_shared(&self, node: SchemaNode) -> bool
        ensures closed { result ≡ true → ReachesNoGuard (edges_in self.now) node.0 }
    {
        weight_of(self.weights.as_slice(), node.0) == SHARED_WEIGHT
    }
}
