//! The validators of a node, one at a time.
ghost use Rattle.std.specs.Prelude.{◌≡◌, ◌<◌, length, option_map, slice_get, Some};
ghost use Rattle.std.specs.Iterator.{YieldsFirstBy, item_count};
ghost use Rattle.schema_node_table.specs.NodeTable.{plan_in};
ghost use Rattle.schema_node_table.specs.NodeViews.{form_of};
ghost use Rattle.schema_node_table.specs.ValidatorViews.{form_asked, left_asked, plan_asked, single_asked, validator_of};

use crate::node::{Entry, EntryForm, NodeForm, Nodes};
use schema_reports::Location;
use schema_traits::SchemaNode;

/// A validator of a node.
///
/// It refuses everything, or it is a keyword or the node that a reference leads to.
#[derive(Clone, Copy)]
pub enum NodeValidator<'n, K> {
    False,
    Keyword(&'n K),
    Reference(SchemaNode),
}

/// An iterator over the validators of a node.
///
/// It has the one validator of `false`, or those of entries in their order.
#[derive(Drop)]
pub enum NodeValidatorsIter<'n, K> {
    False,
    Entries(&'n [Entry<K>]),
}

fn validator<K>(entry: &Entry<K>) -> NodeValidator<'_, K>
    ensures form { validator_of result ≡ form_asked (form_of entry.now.form) }
{
    match &entry.form {
        EntryForm::Keyword(keyword, _) => NodeValidator::Keyword(keyword),
        EntryForm::Reference(edge) => NodeValidator::Reference(edge.node),
    }
}

impl<'n, K> Iterator for NodeValidatorsIter<'n, K> {
    type Item = NodeValidator<'n, K>;

    ghost next_gives = { YieldsFirstBy validator_of left_asked };

    ghost remaining = { item_count left_asked };

    fn next(&mut self) -> Option<NodeValidator<'n, K>> {
        match self {
            NodeValidatorsIter::False => {
                *self = NodeValidatorsIter::Entries(&[]);
                Some(NodeValidator::False)
            }
            NodeValidatorsIter::Entries(entries) => {
                let (first, others) = entries.split_first()?;
                *self = NodeValidatorsIter::Entries(others);
                Some(validator(first))
            }
        }
    }

    fn size_hint(&self) -> (usize, Option<usize>) {
        let len = self.len();
        (len, Some(len))
    }
}

impl<'n, K> ExactSizeIterator for NodeValidatorsIter<'n, K> {
    fn len(&self) -> usize {
        match self {
            NodeValidatorsIter::False => 1,
            NodeValidatorsIter::Entries(entries) => entries.len(),
        }
    }
}

impl<K: Drop> Nodes<K> {
    /// Returns the validators of a node.
    ///
    /// A `true` node and a reserved node have none, a `false` node has `False`, and any other has
    /// its entries in order.
    pub fn validators(&self, node: SchemaNode) -> NodeValidatorsIter<'_, K>
        requires known { node.0 < length self.now }
        ensures validators { left_asked result ≡ plan_asked (plan_in (slice_get self.now node.0)) }
    {
        match &self.node(node).form {
            None => NodeValidatorsIter::Entries(&[]),
            Some(form) => match form {
                NodeForm::Always => NodeValidatorsIter::Entries(&[]),
                NodeForm::Never => NodeValidatorsIter::False,
                NodeForm::Keywords(entries) => NodeValidatorsIter::Entries(entries.as_slice()),
            },
        }
    }

    /// Returns the only validator of a node with exactly one keyword.
    ///
    /// `None` for any other node.
    pub fn single_validator(&self, node: SchemaNode) -> Option<NodeValidator<'_, K>>
        requires known { node.0 < length self.now }
        ensures single { option_map validator_of result ≡ single_asked (plan_in (slice_get self.now node.0)) }
    {
        match &self.node(node).form {
            None => None,
            Some(form) => match form {
                NodeForm::Always => None,
                NodeForm::Never => None,
                NodeForm::Keywords(entries) => {
                    if entries.len() == 1 {
                        Some(validator(&entries[0]))
                    } else {
                        None
                    }
                }
            },
        }
    }

    /// Returns the location of a node's schema.
    pub fn location(&self, node: SchemaNode) -> &Location
        requires known { node.0 < length self.now }
        ensures location { option_map (λ n. n.location) (slice_get self.now node.0) ≡ Some result.now }
    {
        &self.node(node).location
    }
}
