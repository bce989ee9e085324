//! The marks of a keyword's run, and which marks count as the same.
ghost use Rattle.std.specs.List.{list_any};
ghost use Rattle.std.specs.Prelude.{◌≡◌, [], IfOk, OnOk, Some, option_map, OnErr};
ghost use Rattle.theory_definitions.specs.Guarded.{node_child, same_node};
ghost use Rattle.theory_definitions.specs.Runs.{without_last};
ghost use Rattle.schema_run_context.specs.MarkViews.{edges_of, is_marked, last_first, lead_to_one, marks_with, same_mark};
ghost use Rattle.schema_traits.specs.EdgeViews.{edge_of};

use schema_reports::OutOfMemory;
use schema_traits::{Edge, Marked};
use std::alloc::Global;
use std::marker::Model;

/// Returns the edge that the maker of a keyword got for one of its requests.
pub fn child_edge(children: &[Option<Edge>], child: usize) -> Option<&Edge>
    ensures edge { option_map (λ e. edge_of e.now) result ≡ node_child (edges_of children.now) child }
{
    match children.get(child) {
        Some(Some(edge)) => Some(edge),
        _ => None,
    }
}

// Returns whether two edges lead to the same node and are guarded alike, so that they get the same
// answer.
fn are_alike(edge: &Edge, second: &Edge) -> bool
    ensures alike { result ≡ same_node (Some (edge_of edge.now)) (Some (edge_of second.now)) }
{
    if edge.node != second.node {
        return false;
    }
    if edge.guarded {
        second.guarded
    } else {
        !second.guarded
    }
}

fn lead_to_one(children: &[Option<Edge>], child: usize, other: usize) -> bool
    ensures one { result ≡ lead_to_one children.now child other }
{
    match child_edge(children, child) {
        None => false,
        Some(edge) => match child_edge(children, other) {
            None => false,
            Some(second) => are_alike(edge, second),
        },
    }
}

// Returns whether two marks count as the same: they are of the same request, or of children that
// get the same answer.
fn are_one(children: &[Option<Edge>], mark: Marked, other: Marked) -> bool
    ensures one { result ≡ same_mark children.now mark other }
{
    match mark {
        Marked::Child(child) => match other {
            Marked::Child(second) => child == second || lead_to_one(children, child, second),
            Marked::Reservation(_) => false,
        },
        Marked::Reservation(number) => match other {
            Marked::Child(_) => false,
            Marked::Reservation(second) => number == second,
        },
    }
}

fn is_among(children: &[Option<Edge>], mark: Marked, marks: &[Marked]) -> bool
    ensures found { result ≡ list_any (λ other. same_mark children.now mark other) marks.now }
{
    marks.iter().any(|other| are_one(children, mark, *other))
}

/// The marks of a keyword's run.
///
/// No two of them count as the same. Contracts see the last one first.
#[derive(Drop)]
pub struct Marks {
    marks: Vec<Marked>,
}

impl Model for Marks {
    ghost use Rattle.std.specs.Prelude.{List};
    ghost use Rattle.theory_definitions.specs.Keywords as spec;
    ghost use Rattle.schema_run_context.specs.MarkViews.{last_first};

    ghost Value = { List spec.Marked };

    ghost view = { λ m. last_first m.marks.items };
}

impl Marks {
    /// Returns an empty list of marks. Allocates nothing.
    pub fn new(alloc: Global) -> Marks
        ensures none { result ≡ [] }
    {
        Marks {
            marks: Vec::new(alloc),
        }
    }

    /// Returns whether the list holds the same mark, and adds it if not.
    ///
    /// # Errors
    ///
    /// Out of memory. Then nothing has changed.
    pub fn enter(&mut self, children: &[Option<Edge>], mark: Marked) -> Result<bool, OutOfMemory>
        ensures held { IfOk result (λ b. b ≡ is_marked children.now mark self.old) }
        ensures marks { OnOk result (self.new ≡ marks_with children.now mark self.old) }
        ensures unchanged { OnErr result (self.new ≡ self.old) }
    {
        if is_among(children, mark, self.marks.as_slice()) {
            return Ok(true);
        }
        self.marks.push(mark)?;
        Ok(false)
    }

    /// Removes the last mark, if there is one. Allocates nothing.
    pub fn exit(&mut self)
        ensures left { self.new ≡ without_last self.old }
    {
        self.marks.pop();
    }
}
