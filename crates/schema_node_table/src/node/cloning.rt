//! Clones of node tables: each keyword is cloned, and all else is the same.
ghost use Rattle.std.specs.Prelude.{◌≡◌, IfOk, length, map, option_map, string_bytes};
ghost use Rattle.serde_json.specs.View.{view};
ghost use Rattle.schema_node_table.specs.Cloned.{Copies, CopiesList, shaped_node, shaped_nodes};
ghost use Rattle.schema_node_table.specs.NodeTable.{numbered, shaped, shaped_form, shaped_part};
ghost use Rattle.schema_traits.specs.EdgeViews.{edge_of};
ghost use Rattle.schema_node_table.specs.NodeViews.{entry_of, form_of, node_of, plan_of};

use crate::node::{Entry, EntryForm, Node, NodeForm, Nodes};
use schema_reports::OutOfMemory;
use schema_traits::{CloneKeyword, Edge};
use serde_json::Value;
use std::alloc::Global;

fn clone_edge(edge: &Edge) -> Result<Edge, OutOfMemory>
    ensures same { Copies edge_of result edge.now }
{
    Ok(Edge {
        node: edge.node,
        path: edge.path.clone()?,
        guarded: edge.guarded,
    })
}

fn clone_child(child: &Option<Edge>) -> Result<Option<Edge>, OutOfMemory>
    ensures same { Copies (option_map edge_of) result child.now }
{
    match child {
        Some(edge) => Ok(Some(clone_edge(edge)?)),
        None => Ok(None),
    }
}

fn clone_children(
    alloc: Global,
    children: &[Option<Edge>],
) -> Result<Vec<Option<Edge>>, OutOfMemory>
    ensures same { CopiesList (map (option_map edge_of)) result children.now }
{
    let mut copies = Vec::with_capacity(alloc, children.len())?;
    for child in children {
        copies.push(clone_child(child)?)?;
    }
    Ok(copies)
}

fn clone_form<K: CloneKeyword>(
    alloc: Global,
    form: &EntryForm<K>,
) -> Result<EntryForm<K>, OutOfMemory>
    ensures same { Copies (λ f. shaped_form K.shape (form_of f)) result form.now }
{
    match form {
        EntryForm::Keyword(keyword, children) => Ok(EntryForm::Keyword(
            keyword.clone()?,
            clone_children(alloc, children.as_slice())?,
        )),
        EntryForm::Reference(edge) => Ok(EntryForm::Reference(clone_edge(edge)?)),
    }
}

fn clone_entry<K: CloneKeyword>(alloc: Global, entry: &Entry<K>) -> Result<Entry<K>, OutOfMemory>
    ensures same { Copies (λ e. shaped_part K.shape (entry_of e)) result entry.now }
{
    Ok(Entry {
        name: entry.name.clone()?,
        priority: entry.priority,
        is_leaf: entry.is_leaf,
        form: clone_form(alloc, &entry.form)?,
    })
}

fn clone_entries<K: CloneKeyword>(
    alloc: Global,
    entries: &[Entry<K>],
) -> Result<Vec<Entry<K>>, OutOfMemory>
    ensures same { CopiesList (λ es. map (shaped_part K.shape) (map entry_of es)) result entries.now }
{
    let mut copies = Vec::with_capacity(alloc, entries.len())?;
    for entry in entries {
        copies.push(clone_entry(alloc, entry)?)?;
    }
    Ok(copies)
}

fn clone_node_form<K: CloneKeyword>(
    alloc: Global,
    form: &NodeForm<K>,
) -> Result<NodeForm<K>, OutOfMemory>
    ensures same { Copies (λ f. shaped K.shape (plan_of f)) result form.now }
{
    match form {
        NodeForm::Always => Ok(NodeForm::Always),
        NodeForm::Never => Ok(NodeForm::Never),
        NodeForm::Keywords(entries) => Ok(NodeForm::Keywords(clone_entries(
            alloc,
            entries.as_slice(),
        )?)),
    }
}

fn clone_any_form<K: CloneKeyword>(
    alloc: Global,
    form: &Option<NodeForm<K>>,
) -> Result<Option<NodeForm<K>>, OutOfMemory>
    ensures same { Copies (λ f. option_map (shaped K.shape) (option_map plan_of f)) result form.now }
{
    match form {
        Some(form) => Ok(Some(clone_node_form(alloc, form)?)),
        None => Ok(None),
    }
}

fn clone_base(base: &Option<String>) -> Result<Option<String>, OutOfMemory>
    ensures same { Copies (option_map string_bytes) result base.now }
{
    match base {
        Some(uri) => Ok(Some(uri.clone()?)),
        None => Ok(None),
    }
}

fn clone_annotations(annotations: &Option<Value>) -> Result<Option<Value>, OutOfMemory>
    ensures same { Copies (option_map view) result annotations.now }
{
    match annotations {
        Some(members) => Ok(Some(members.clone()?)),
        None => Ok(None),
    }
}

fn clone_node<K: CloneKeyword>(alloc: Global, node: &Node<K>) -> Result<Node<K>, OutOfMemory>
    ensures same { Copies (λ n. shaped_node K.shape (node_of n)) result node.now }
{
    Ok(Node {
        location: node.location.clone()?,
        base: clone_base(&node.base)?,
        start: node.start,
        round: node.round,
        order: node.order,
        settled: node.settled,
        annotations: clone_annotations(&node.annotations)?,
        form: clone_any_form(alloc, &node.form)?,
    })
}

fn clone_nodes<K: CloneKeyword>(
    alloc: Global,
    nodes: &[Node<K>],
) -> Result<Vec<Node<K>>, OutOfMemory>
    ensures same { CopiesList (λ ns. shaped_nodes K.shape (map node_of ns)) result nodes.now }
{
    let mut copies = Vec::with_capacity(alloc, nodes.len())?;
    for node in nodes {
        copies.push(clone_node(alloc, node)?)?;
    }
    Ok(copies)
}

fn clone_weights(weights: &Vec<u8>) -> Result<Vec<u8>, OutOfMemory>
    ensures same { IfOk result (λ copy. copy.items ≡ weights.now.items) }
{
    let copy = weights.clone()?;
    Ok(copy)
}

impl<K: CloneKeyword> Nodes<K> {
    /// Returns a clone of the table.
    ///
    /// Each keyword is cloned, and all else is the same.
    ///
    /// # Errors
    ///
    /// Out of memory.
    pub fn clone(&self, alloc: Global) -> Result<Nodes<K>, OutOfMemory>
        ensures count { Copies length result self.now }
        ensures nodes { Copies (shaped_nodes K.shape) result self.now }
        ensures numbered { Copies (numbered K.shape) result self.now }
    {
        let weights = clone_weights(&self.weights)?;
        Ok(Nodes {
            nodes: clone_nodes(alloc, self.nodes.as_slice())?,
            finished: self.finished,
            weights,
        })
    }
}
