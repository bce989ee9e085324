//! The order of the units of a schema's entries.
//!
//! The unit of an absorbed `type` comes first. Those of absorbed counts come before the first entry
//! that looks inside the instance. The units of the entries are in one list of exact size, which is
//! cut in two only if something is absorbed.
ghost use Rattle.std.specs.Prelude.{◌≡◌, Bool, IfOk, OnOk};
ghost use Rattle.theory_definitions.specs.UnitOrder.{nothing_placed, placed};
ghost use Rattle.schema_run_steps.specs.EntryUnits.{ListsInOrder, PlacesAbsorbed, PlacesEntry, placed_of};

use schema_reports::{ChildList, EvaluationNode, OutOfMemory};
use std::alloc::Global;

/// The unit of a keyword that another one absorbs, with its name.
#[derive(Drop)]
pub struct AbsorbedUnit {
    pub keyword: String,
    pub unit: EvaluationNode,
}

/// The unit of an entry, and those of the keywords that it absorbs, in order.
#[derive(Drop)]
pub struct EntryUnits {
    pub own: EvaluationNode,
    pub absorbed: Vec<AbsorbedUnit>,
}

/// The least priority of the keywords that look inside an array or an object.
///
/// Absorbed counts come before the first of them.
const LEAST_INSIDE: u8 = 22;

/// The units of a schema's entries so far.
///
/// Of `entries`, the first `before` come before the absorbed `counts`.
#[derive(Drop)]
pub struct UnitsInOrder {
    types: Vec<EvaluationNode>,
    entries: Vec<EvaluationNode>,
    before: usize,
    counts: Vec<EvaluationNode>,
}

impl UnitsInOrder {
    /// Returns an empty list, with room for the units of this many entries.
    ///
    /// # Errors
    ///
    /// Out of memory.
    pub fn new(alloc: Global, entries: usize) -> Result<UnitsInOrder, OutOfMemory>
        ensures empty { IfOk result (λ u. (texts : Bool) → placed_of texts u ≡ nothing_placed) }
    {
        Ok(UnitsInOrder {
            types: Vec::new(alloc),
            entries: Vec::with_capacity(alloc, entries)?,
            before: 0,
            counts: Vec::new(alloc),
        })
    }

    fn place_absorbed(&mut self, absorbed: Vec<AbsorbedUnit>) -> Result<(), OutOfMemory>
        ensures placed { OnOk result (PlacesAbsorbed self.old absorbed.items self.new) }
    {
        for one in absorbed {
            if one.keyword.as_str() == "type" {
                self.types.push(one.unit)?;
            } else {
                self.counts.push(one.unit)?;
            }
        }
        Ok(())
    }

    /// Adds the units of the next entry, which has this priority.
    ///
    /// # Errors
    ///
    /// Out of memory.
    pub fn place(&mut self, priority: u8, units: EntryUnits) -> Result<(), OutOfMemory>
        ensures placed { OnOk result (PlacesEntry self.old priority units self.new) }
    {
        self.place_absorbed(units.absorbed)?;
        let placed = self.entries.len();
        self.entries.push(units.own)?;
        if placed <= self.before {
            self.before = if LEAST_INSIDE <= priority {
                placed
            } else {
                self.entries.len()
            };
        }
        Ok(())
    }

    /// Returns the units in their order.
    ///
    /// # Errors
    ///
    /// Out of memory.
    pub fn into_children(self) -> Result<ChildList, OutOfMemory>
        ensures children { IfOk result (ListsInOrder self) }
    {
        let mut nodes = self.types;
        let mut entries = self.entries;
        let mut counts = self.counts;
        if nodes.is_empty() && counts.is_empty() {
            return Ok(ChildList::from_nodes(entries));
        }
        let before = self.before.min(entries.len());
        let mut after = entries.split_off(before)?;
        nodes.append(&mut entries)?;
        nodes.append(&mut counts)?;
        nodes.append(&mut after)?;
        Ok(ChildList::from_nodes(nodes))
    }
}
