//! Evaluations: what a schema says of an instance, unit by unit.
//!
//! See Core 2020-12, 12.4. There is one unit for each schema place and instance place that were
//! evaluated together.
ghost use Rattle.std.specs.Prelude.{◌≡◌, [], ◌++◌, ◌∷◌, Bool, OnErr, map, OnOk};
ghost use Rattle.schema_reports.specs.Showing.{Yields};
ghost use Rattle.std.specs.List.{list_all};
ghost use Rattle.theory_definitions.specs.Reports.{report_of};
ghost use Rattle.schema_reports.specs.UnitViews.{unit_of};

use crate::location::OutOfMemory;
use crate::shared_location::SharedLocation;
use std::alloc::Global;
use std::marker::Model;

/// What a keyword says of an instance apart from its verdict: any JSON value.
pub type Annotations = serde_json::Value;

/// An error of a unit: the name of its keyword, and its text.
#[derive(Drop)]
pub struct ErrorDescription {
    pub keyword: String,
    pub text: String,
}

/// What a unit reports of itself, without the units inside it.
///
/// `evaluation_path` is the path through the schemas that led to the unit. `schema_location` is the
/// unit's place in its schema, and `absolute_keyword_location` its URI, or `None` if its schema
/// resource has no identifier. `instance_location` is the place of the instance. `errors` holds the
/// unit's own errors only. Paths and places are JSON Pointers (RFC 6901).
#[derive(Drop)]
pub struct UnitReport {
    pub valid: bool,
    pub evaluation_path: SharedLocation,
    pub absolute_keyword_location: Option<String>,
    pub schema_location: SharedLocation,
    pub instance_location: SharedLocation,
    pub annotations: Option<Annotations>,
    pub errors: Vec<ErrorDescription>,
}

/// A unit: its own report, and the units inside it, in order.
#[derive(Drop)]
pub struct EvaluationNode {
    pub report: UnitReport,
    pub children: Vec<EvaluationNode>,
}

/// The units inside a unit, in order. Contracts see a list.
#[derive(Drop)]
pub struct ChildList {
    nodes: Vec<EvaluationNode>,
}

impl Model for ChildList {
    ghost use Rattle.std.specs.Prelude.{List};
    ghost use Rattle.std.specs.Coded.{codes};
    ghost use Rattle.schema_reports.specs.declared.evaluation.EvaluationNode.{EvaluationNode};
    ghost use Rattle.schema_reports.specs.contracts.evaluation.EvaluationNode as node;

    ghost Value = { List EvaluationNode };

    ghost coded = { Prim.hlevel (codes, node.the_row.coded) };

    ghost view = { λ l. l.nodes.items };
}

impl ChildList {
    /// Returns an empty list.
    pub fn new(alloc: Global) -> ChildList
        ensures empty { result ≡ [] }
    {
        ChildList {
            nodes: Vec::new(alloc),
        }
    }

    /// Returns a list with one unit.
    pub fn of(alloc: Global, node: EvaluationNode) -> Result<ChildList, OutOfMemory>
        ensures one { Yields result (node ∷ []) }
    {
        let mut list = ChildList::new(alloc);
        list.push(node)?;
        Ok(list)
    }

    /// Returns a list of these units, in this order.
    pub fn from_nodes(nodes: Vec<EvaluationNode>) -> ChildList
        ensures nodes { result ≡ nodes.items }
    {
        ChildList { nodes }
    }

    /// Adds a unit at the end. On `Err` the list is unchanged.
    pub fn push(&mut self, node: EvaluationNode) -> Result<(), OutOfMemory>
        ensures pushed { OnOk result (self.new ≡ self.old ++ node ∷ []) }
        ensures unchanged { OnErr result (self.new ≡ self.old) }
    {
        self.nodes.push(node)?;
        Ok(())
    }

    /// Returns whether every unit of the list is valid.
    pub fn all_valid(&self) -> bool
        ensures verdict { (texts : Bool) → result ≡ list_all (λ u. (report_of u).valid) (map (unit_of texts) self.now) }
    {
        for node in &self.nodes {
            if !node.report.valid {
                return false;
            }
        }
        true
    }

    /// Returns the units, in order.
    pub fn into_nodes(self) -> Vec<EvaluationNode>
        ensures nodes { result.items ≡ self }
    {
        self.nodes
    }
}
