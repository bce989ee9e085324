//! The places of an instance, numbered when their numbers are first requested.
//!
//! The first question that needs the number of its place numbers them all, so a schema without such
//! questions numbers nothing and allocates nothing. Each run of a call numbers the places anew.
ghost use Rattle.std.specs.Prelude.{◌≡◌, IfOk, OnErr, OnOk, Some, ⊤};
ghost use Rattle.std.specs.Borrow.{sem};
ghost use Rattle.theory_definitions.specs.Instance.{places};
ghost use Rattle.schema_places.specs.Numbers.{NumbersAll};
ghost use Rattle.serde_json.specs.View.{view};

use crate::places::Places;
use schema_reports::OutOfMemory;
use serde_json::Value;
use std::alloc::Global;
use std::marker::Model;

/// The places of an instance, numbered on first use.
///
/// A run that never requests a number pays nothing for them. Contracts see the instance, whether
/// its places are numbered or not.
#[derive(Drop)]
pub struct PlacesOnDemand<'i> {
    root: &'i Value,
    numbered: Option<Places<'i>>,
}

impl<'i> Model for PlacesOnDemand<'i> {
    ghost use Rattle.std.specs.Prelude.{IfSome};
    ghost use Rattle.serde_json.specs.declared.value.Value as instance;
    ghost use Rattle.serde_json.specs.contracts.value.Value as value;
    ghost use Rattle.schema_places.specs.Rows.{ArePlacesOf};
    ghost use Rattle.std.specs.Coded.{codes};

    ghost Value = { instance.Value };

    ghost coded = { Prim.hlevel (codes, value.the_row.coded) };

    ghost view = { λ p. p.root.now };

    ghost invariant = { λ p. IfSome p.numbered (λ ps. ArePlacesOf p.root.now ps) };
}

impl<'i> PlacesOnDemand<'i> {
    ghost use Rattle.schema_places.specs.Lending.{EndsAs};

    /// Returns the places of an instance, not yet numbered. Allocates nothing.
    pub fn of(root: &'i Value) -> PlacesOnDemand<'i>
        ensures root { result ≡ root.now }
    {
        PlacesOnDemand {
            root,
            numbered: None,
        }
    }

    /// Returns the numbered places. The first call numbers them.
    ///
    /// # Errors
    ///
    /// Out of memory. Then nothing has changed.
    pub fn numbered(&mut self, alloc: Global) -> Result<&Places<'i>, OutOfMemory>
        ensures places { IfOk result (λ ps. ps.now ≡ places (view self.old)) }
        ensures there { IfOk result (λ ps. NumbersAll (view self.old) ps.now) }
        ensures* unchanged { sem 𝓛 (EndsAs self.entry self.old) }
    {
        if self.numbered.is_none() {
            number_root(&mut self.numbered, alloc, self.root)?;
        }
        match &self.numbered {
            Some(places) => Ok(places),
            None => unreachable!(),
        }
    }
}

// Numbers the places of a root. Not inlined, so that callers of `numbered` stay small.
#[inline(never)]
fn number_root<'i>(
    numbered: &mut Option<Places<'i>>,
    alloc: Global,
    root: &'i Value,
) -> Result<(), OutOfMemory>
    ensures places { OnOk result (numbered.new ≡ Some (places (view root.now))) }
    ensures there { OnOk result (NumbersAll (view root.now) (places (view root.now))) }
    ensures unchanged { OnErr result (numbered.new ≡ numbered.old) }
{
    let places = Places::number(alloc, root)?;
    *numbered = Some(places);
    Ok(())
}
