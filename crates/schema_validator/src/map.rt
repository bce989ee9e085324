//! The validators of a document's schemas, by their pointers.
ghost use Rattle.std.specs.Prelude.{◌≡◌, ◌↔◌, [], OnErr, OnOk, IsTrue};
ghost use Rattle.std.specs.Prelude.{is_some, length, map, option_copied, string_bytes};
ghost use Rattle.std.specs.Map.{keys_of};
ghost use Rattle.schema_validator.specs.MapViews.{EachOnce, PutsAt, at_pointer};

use crate::validator::Validator;
use schema_reports::OutOfMemory;
use schema_traits::Validate;
use std::alloc::Global;
use std::collections::BTreeMap;
use std::collections::btree_map::Keys;
use std::marker::Model;

/// A map from JSON Pointers to validators.
///
/// Contracts see it as the list of the pointers, each with the parts of its validator. A lookup
/// makes about as many comparisons as the logarithm of the number of pointers.
#[derive(Drop)]
pub struct ValidatorMap<K: Validate, M> {
    entries: BTreeMap<String, Validator<K, M>>,
}

impl<K: Validate, M> Model for ValidatorMap<K, M> {
    ghost use Rattle.schema_compiled.specs.Program.{Program};
    ghost use Rattle.schema_validator.specs.MapViews.{Entries, entries_of};
    ghost use Rattle.serde_json.specs.contracts.value.Value as value;
    ghost use Rattle.std.specs.Coded.{codes};

    ghost Value = { Entries (Program K M) };

    ghost coded = { Prim.hlevel (codes, value.the_row.coded) };

    ghost view = { λ m. entries_of m.entries };
}

impl<K: Validate, M: Drop> ValidatorMap<K, M> {
    /// Returns an empty map.
    pub(crate) fn new(alloc: Global) -> ValidatorMap<K, M>
        ensures empty { result ≡ [] }
    {
        ValidatorMap {
            entries: BTreeMap::new(alloc),
        }
    }

    /// Inserts a validator at a pointer, in place of the one there, if any.
    ///
    /// # Errors
    ///
    /// Out of memory, and then nothing has changed.
    pub(crate) fn insert(
        &mut self,
        pointer: String,
        validator: Validator<K, M>,
    ) -> Result<(), OutOfMemory>
        ensures set { OnOk result (PutsAt (string_bytes pointer) validator self.old self.new) }
        ensures unchanged { OnErr result (self.new ≡ self.old) }
    {
        self.entries.insert(pointer, validator)?;
        Ok(())
    }

    /// Returns the validator at a pointer, if there is one.
    pub fn get(&self, pointer: &str) -> Option<&Validator<K, M>>
        ensures found { option_copied result ≡ at_pointer self.now pointer.now }
    {
        self.entries.get(pointer)
    }

    /// Returns whether there is a validator at a pointer.
    pub fn contains_key(&self, pointer: &str) -> bool
        ensures found { result ≡ is_some (at_pointer self.now pointer.now) }
    {
        self.entries.contains_key(pointer)
    }

    /// Returns the pointers, each once.
    pub fn keys(&self) -> Keys<'_, String, Validator<K, M>>
        ensures keys { map string_bytes result ≡ keys_of self.now }
        ensures once { EachOnce self.now }
    {
        self.entries.keys()
    }

    /// Returns the number of pointers.
    pub fn len(&self) -> usize
        ensures count { result ≡ length self.now }
    {
        self.entries.len()
    }

    /// Returns whether the map is empty.
    pub fn is_empty(&self) -> bool
        ensures empty { IsTrue result ↔ (self.now ≡ []) }
    {
        self.entries.is_empty()
    }
}
