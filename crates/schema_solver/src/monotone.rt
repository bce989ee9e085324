//! Whether the keywords of nodes say that they are monotone.
ghost use Rattle.std.specs.Prelude.{◌≡◌, ◌↔◌, Bool, length, true};
ghost use Rattle.std.specs.List.{list_all};
ghost use Rattle.schema_node_table.specs.declared.node.Entry.{Entry};
ghost use Rattle.theory_fixed_points.specs.NodesSay.{AreMonotone};
ghost use Rattle.schema_solver.specs.Saying.{EachSays, form_says, node_says, table_says};
ghost use Rattle.schema_node_table.specs.NodeTable.{numbered};
ghost use Rattle.schema_node_table.specs.NodeViews.{form_of, node_of};

use schema_node_table::{Entry, EntryForm, Node, NodeForm, Nodes};
use schema_traits::{SchemaNode, Validate};

// Returns whether the keyword of an entry says that it is monotone; a reference counts as monotone.
fn entry_says<K: Validate>(entry: &Entry<K>) -> bool
    ensures says { result ≡ form_says (λ k. K.says_monotone (K.shape k)) (form_of entry.now.form) }
{
    match &entry.form {
        EntryForm::Keyword(keyword, _) => keyword.monotone(),
        EntryForm::Reference(_) => true,
    }
}

fn entries_say<K: Validate>(entries: &[Entry<K>]) -> bool
    ensures says { result ≡ list_all (λ (e : Entry K). form_says (λ k. K.says_monotone (K.shape k)) (form_of e.form)) entries.now }
{
    entries.iter().all(|entry| entry_says(entry))
}

fn node_says<K: Validate>(node: &Node<K>) -> bool
    ensures says { result ≡ node_says (λ k. K.says_monotone (K.shape k)) (node_of node.now) }
{
    match &node.form {
        None => true,
        Some(form) => match form {
            NodeForm::Always => true,
            NodeForm::Never => true,
            NodeForm::Keywords(entries) => entries_say(entries.as_slice()),
        },
    }
}

fn table_says<K: Validate>(nodes: &Nodes<K>) -> bool
    ensures says { result ≡ table_says (λ k. K.says_monotone (K.shape k)) nodes.now }
{
    for number in 0..nodes.len() {
        if !node_says(nodes.node(SchemaNode(number))) {
            return false;
        }
    }
    true
}

/// Returns whether each keyword of each node says that it is monotone.
///
/// References count as monotone.
pub fn is_monotone<K: Validate>(nodes: &Nodes<K>) -> bool
    ensures exactly { (result ≡ true) ↔ EachSays K.says_monotone (numbered K.shape nodes.now) (length nodes.now) }
    ensures monotone { result ≡ true → (texts : Bool) → AreMonotone (K.words texts) (numbered K.shape nodes.now) (length nodes.now) }
{
    table_says(nodes)
}
