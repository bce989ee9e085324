//! The numbers of nodes, and the edges that lead to them.

use schema_reports::Location;

/// The number of a node.
#[derive(Clone, Copy, PartialEq, Eq)]
pub struct SchemaNode(pub usize);

/// A number that a maker reserved, counted separately from those of nodes.
///
/// Runs mark it, and never ask it.
#[derive(Clone, Copy, PartialEq, Eq)]
pub struct PendingSchemaNode(pub usize);

/// An edge to a node.
///
/// `path` is what the edge adds to the evaluation path. An edge is guarded if it was made while its
/// target was in progress.
#[derive(Drop)]
pub struct Edge {
    pub node: SchemaNode,
    pub path: Location,
    pub guarded: bool,
}
