//! Lists of texts.
ghost use Rattle.std.specs.Prelude.{◌≡◌, [], ◌++◌, ◌∷◌, map, string_bytes, OnOk};
ghost use Rattle.keyword_makers.specs.Members.{names_of};
ghost use Rattle.schema_traits.specs.KeywordViews.{is_nil};
ghost use Rattle.standard_pattern_properties.specs.Firsts.{first_of, later_of};
ghost use Rattle.schema_traits.specs.Showing.{Yields};
ghost use Rattle.schema_traits.specs.Readings.{fields, text_read};

use keyword_makers::names_of;
use schema_reports::OutOfMemory;
use serde_json::{Map, Value};
use std::alloc::{AllocError, Global};
use std::collections::VecDeque;
use std::marker::Model;

/// A list of texts, in order.
#[derive(Drop)]
pub struct Texts {
    items: Vec<String>,
}

impl Model for Texts {
    ghost use Rattle.std.specs.Prelude.{List, map, string_bytes};
    ghost use Rattle.theory_definitions.specs.Instance.{Text};

    ghost Value = { List Text };

    ghost view = { λ t. map string_bytes t.items.items };
}

impl Texts {
    /// Returns an empty list.
    pub fn none(alloc: Global) -> Texts
        ensures none { result ≡ [] }
    {
        Texts {
            items: Vec::new(alloc),
        }
    }

    /// Returns the texts as a slice.
    pub fn as_slice(&self) -> &[String]
        ensures texts { map string_bytes result.now ≡ self.now }
    {
        self.items.as_slice()
    }

    /// Returns whether the list is empty.
    pub fn is_empty(&self) -> bool
        ensures empty { result ≡ is_nil self.now }
    {
        self.items.is_empty()
    }

    /// Appends a text.
    pub fn push(&mut self, alloc: Global, text: &str) -> Result<(), OutOfMemory>
        ensures pushed { OnOk result (self.new ≡ self.old ++ text.now ∷ []) }
    {
        self.items.push(String::from_str(alloc, text)?)?;
        Ok(())
    }

    /// Returns the names of an object's members.
    pub fn of_members(alloc: Global, members: &Map<String, Value>) -> Result<Texts, OutOfMemory>
        ensures names { Yields result (names_of (fields members.now)) }
    {
        let items = names_of(alloc, members)?;
        Ok(Texts { items })
    }
}

impl Clone for Texts {
    ghost is_clone = { λ texts copy. copy ≡ texts };

    /// Returns a clone of the texts.
    ///
    /// # Errors
    ///
    /// Out of memory.
    fn clone(&self) -> Result<Texts, AllocError> {
        let items = self.items.clone()?;
        Ok(Texts { items })
    }
}

/// The names of the members that are left, the current one first.
#[derive(Drop)]
pub struct NamesLeft {
    names: VecDeque<String>,
}

impl Model for NamesLeft {
    ghost use Rattle.std.specs.Prelude.{List, map, string_bytes};
    ghost use Rattle.theory_definitions.specs.Instance.{Text};

    ghost Value = { List Text };

    ghost view = { λ left. map string_bytes left.names.items };
}

impl NamesLeft {
    /// Returns an empty list.
    pub fn none(alloc: Global) -> NamesLeft
        ensures none { result ≡ [] }
    {
        NamesLeft {
            names: VecDeque::new(alloc),
        }
    }

    /// Appends a name.
    pub fn push(&mut self, alloc: Global, name: &str) -> Result<(), OutOfMemory>
        ensures pushed { OnOk result (self.new ≡ self.old ++ name.now ∷ []) }
    {
        self.names.push_back(String::from_str(alloc, name)?)?;
        Ok(())
    }

    /// Returns the current name.
    pub fn first(&self) -> Option<&str>
        ensures first { text_read result ≡ first_of self.now }
    {
        match self.names.front() {
            Some(name) => Some(name.as_str()),
            None => None,
        }
    }

    /// Removes the current name.
    pub fn advance(&mut self)
        ensures advanced { self.new ≡ later_of self.old }
    {
        drop(self.names.pop_front());
    }
}
