//! The numbered places of an instance.
ghost use Rattle.std.specs.Prelude.{◌≡◌, ◌<◌, ◌≤◌, ◌&&◌, ◌++◌, ◌∷◌, [], ℕ, IfOk, length, map, nat_le};
ghost use Rattle.schema_reports.specs.Showing.{Yields};
ghost use Rattle.theory_definitions.specs.Instance.{places};
ghost use Rattle.schema_places.specs.Numbers.{Ascends, Closed, NumbersAll, OwnNumbers, is_under, number_of, place_at};
ghost use Rattle.schema_reports.specs.InstanceViews.{step_of};
ghost use Rattle.serde_json.specs.View.{view};

use crate::numbering::lay_out;
use crate::rows::Table;
use schema_reports::{InstanceStep, OutOfMemory};
use serde_json::Value;
use std::alloc::Global;
use std::marker::Model;

/// The places of an instance, each with its number.
///
/// The root has number 0. In an object each name comes before its member, in the order of the
/// names; the items of an array come in the order of their indices. Contracts see the list of the
/// places, in the order of their numbers.
#[derive(Drop)]
pub struct Places<'i> {
    root: &'i Value,
    table: Table<'i>,
}

impl<'i> Model for Places<'i> {
    ghost use Rattle.std.specs.Prelude.{List};
    ghost use Rattle.theory_definitions.specs.Instance.{Place};
    ghost use Rattle.schema_places.specs.Rows.{LaidOut, places_of};

    ghost Value = { List Place };

    ghost view = { λ p. places_of p.root.now };

    ghost invariant = { λ p. LaidOut p.root.now p.table };
}

impl<'i> Places<'i> {
    /// Numbers the places of an instance.
    ///
    /// Each place that exists in the instance gets a number, and no two get the same one.
    ///
    /// # Errors
    ///
    /// Out of memory.
    pub fn number(alloc: Global, value: &'i Value) -> Result<Places<'i>, OutOfMemory>
        ensures places { Yields result (places (view value.now)) }
        ensures there { IfOk result (λ ps. NumbersAll (view value.now) ps) }
        ensures own { IfOk result (λ ps. OwnNumbers ps) }
        ensures ascend { IfOk result (λ ps. Ascends ps) }
    {
        let table = lay_out(alloc, value)?;
        Ok(Places { root: value, table })
    }

    /// Returns the number of places. Allocates nothing.
    pub fn len(&self) -> usize
        ensures count { result ≡ length self.now }
        ensures own { OwnNumbers self.now }
        ensures ascend { Ascends self.now }
        ensures closed { Closed self.now }
    {
        self.table.len()
    }

    /// States that the place above each numbered place is numbered too. Does nothing when it runs.
    pub fn assert_closed(&self)
        ensures closed { Closed self.now }
    {
        // Opens the value, so that the contract sees what it is made of.
        let _ = &self.table;
    }

    /// Returns the greatest number at or below the place with this number.
    ///
    /// Exactly the places at or below it have the numbers from its own to that one. Allocates
    /// nothing.
    pub fn last(&self, place: usize) -> usize
        requires known { place < length self.now }
        ensures from { place ≤ result }
        ensures known { result < length self.now }
        ensures under { (k : ℕ) → k < length self.now → is_under (place_at self.now place) (place_at self.now k)
            ≡ (nat_le place k && nat_le k result) }
    {
        self.table.last(place)
    }

    /// Returns the number of the place one step below another one, if it exists.
    ///
    /// Allocates nothing.
    #[inline(always)]
    pub fn child(&self, place: usize, step: InstanceStep<'_>) -> Option<usize>
        requires known { place < length self.now }
        ensures child { result ≡ number_of (place_at self.now place ++ step_of step.entry ∷ []) self.now }
    {
        self.table.child(place, step)
    }

    /// Returns the number of the place that the steps lead to from another one, if it exists.
    ///
    /// Allocates nothing.
    pub fn find_from(&self, place: usize, steps: &[InstanceStep<'_>]) -> Option<usize>
        requires known { place < length self.now }
        ensures number { result ≡ number_of (place_at self.now place ++ map step_of steps.now) self.now }
    {
        // Opens the value, so that the contents of its rows are known below.
        let _ = &self.table;
        let mut number = place;
        for step in steps {
            match self.child(number, *step) {
                Some(below) => number = below,
                None => return None,
            }
        }
        Some(number)
    }

    /// Returns the number of the place that the steps lead to from the root, if it exists.
    ///
    /// Allocates nothing.
    pub fn find(&self, steps: &[InstanceStep<'_>]) -> Option<usize>
        ensures number { result ≡ number_of (map step_of steps.now) self.now }
    {
        // Opens the value, so that the root's number is known.
        let _ = &self.table;
        self.find_from(0, steps)
    }
}
