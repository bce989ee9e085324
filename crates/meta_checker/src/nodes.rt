//! Whether the keywords of nodes show fractions of the schema in their texts.
ghost use Rattle.std.specs.Prelude.{◌≡◌, ◌↔◌, length, true};
ghost use Rattle.std.specs.List.{list_all};
ghost use Rattle.schema_node_table.specs.declared.node.Entry.{Entry};
ghost use Rattle.schema_node_table.specs.NodeTable.{numbered};
ghost use Rattle.schema_node_table.specs.NodeViews.{form_of, node_of};
ghost use Rattle.theory_meaning.specs.Fractions.{AreWhole};
ghost use Rattle.meta_checker.specs.Shown.{form_is_whole, node_is_whole, table_is_whole};

use schema_node_table::{Entry, EntryForm, Node, NodeForm, Nodes};
use schema_traits::{SchemaNode, Validate};

/// Reports whether a keyword shows a fraction of the schema.
pub trait TellsFractions<K: Validate> {
    /// Returns whether no text of the keyword shows a fraction of the schema.
    ///
    /// Does not allocate.
    fn shows_none(&self, keyword: &K) -> bool
        ensures whole { result ≡ K.is_whole (K.shape keyword.now) };
}

// Returns whether the keyword of an entry shows no fraction; a reference shows none.
fn entry_shows_none<K: Validate, F: TellsFractions<K>>(fractions: &F, entry: &Entry<K>) -> bool
    ensures shows { result ≡ form_is_whole (λ k. K.is_whole (K.shape k)) (form_of entry.now.form) }
{
    match &entry.form {
        EntryForm::Keyword(keyword, _) => fractions.shows_none(keyword),
        EntryForm::Reference(_) => true,
    }
}

fn entries_show_none<K: Validate, F: TellsFractions<K>>(fractions: &F, entries: &[Entry<K>]) -> bool
    ensures shows { result ≡ list_all (λ (e : Entry K). form_is_whole (λ k. K.is_whole (K.shape k)) (form_of e.form)) entries.now }
{
    entries
        .iter()
        .all(|entry| entry_shows_none(fractions, entry))
}

fn node_shows_none<K: Validate, F: TellsFractions<K>>(fractions: &F, node: &Node<K>) -> bool
    ensures shows { result ≡ node_is_whole (λ k. K.is_whole (K.shape k)) (node_of node.now) }
{
    match &node.form {
        None => true,
        Some(form) => match form {
            NodeForm::Always => true,
            NodeForm::Never => true,
            NodeForm::Keywords(entries) => entries_show_none(fractions, entries.as_slice()),
        },
    }
}

fn table_shows_none<K: Validate, F: TellsFractions<K>>(fractions: &F, nodes: &Nodes<K>) -> bool
    ensures shows { result ≡ table_is_whole (λ k. K.is_whole (K.shape k)) nodes.now }
{
    for number in 0..nodes.len() {
        if !node_shows_none(fractions, nodes.node(SchemaNode(number))) {
            return false;
        }
    }
    true
}

/// Returns whether no keyword of these nodes shows a fraction of the schema.
///
/// References show none. Does not allocate.
pub fn show_no_fraction<K: Validate, F: TellsFractions<K>>(fractions: &F, nodes: &Nodes<K>) -> bool
    ensures exactly { (result ≡ true) ↔ AreWhole K.is_whole (numbered K.shape nodes.now) (length nodes.now) }
{
    table_shows_none(fractions, nodes)
}
