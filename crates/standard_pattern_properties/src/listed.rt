//! A set of names.
ghost use Rattle.std.specs.Prelude.{◌≡◌, []};
ghost use Rattle.serde_json.specs.View.{view};
ghost use Rattle.keyword_authoring.specs.Texts.{is_among};
ghost use Rattle.keyword_makers.specs.Members.{names_of};
ghost use Rattle.schema_traits.specs.Showing.{Yields};
ghost use Rattle.schema_traits.specs.Readings.{fields};

use schema_reports::OutOfMemory;
use schema_traits::AscendingNames;
use serde_json::{Map, Value};
use std::alloc::{AllocError, Global};
use std::collections::BTreeSet;
use std::marker::Model;

/// A set of names, in order.
///
/// A lookup takes logarithmic time. Names that come in ascending order, like those of an object's
/// members, are looked up faster by `has_from`.
#[derive(Drop)]
pub struct Listed {
    names: BTreeSet<String>,
    /// The same names, unless the set was made empty.
    ascending: Option<AscendingNames>,
}

impl Model for Listed {
    ghost use Rattle.std.specs.Prelude.{◌≡◌, IfSome, List, map, string_bytes};
    ghost use Rattle.theory_definitions.specs.Instance.{Text};

    ghost Value = { List Text };

    ghost view = { λ listed. map string_bytes listed.names.keys };

    ghost invariant = { λ listed. IfSome listed.ascending (λ names. names ≡ map string_bytes listed.names.keys) };
}

impl Listed {
    /// Returns an empty set.
    pub fn none(alloc: Global) -> Listed
        ensures none { result ≡ [] }
    {
        Listed {
            names: BTreeSet::new(alloc),
            ascending: None,
        }
    }

    /// Returns whether the set contains a name.
    pub fn has(&self, name: &str) -> bool
        ensures has { result ≡ is_among self.now name.now }
    {
        self.names.contains(name)
    }

    /// Returns the index for the next lookup, and whether the set contains a name.
    ///
    /// Faster than `has` if names are looked up in ascending order, the first from index 0, and each
    /// other from the index that the lookup before it returned. The answer is right from any index,
    /// and in any order.
    #[inline(always)]
    pub(crate) fn has_from(&self, from: usize, name: &str) -> (usize, bool)
        ensures has { result.1 ≡ is_among self.now name.now }
    {
        if let Some(names) = &self.ascending {
            let (place, found) = names.place_from(from, name);
            if found {
                return (place.saturating_add(1), true);
            }
            return (place, self.has(name));
        }
        (from, self.has(name))
    }

    /// Returns the names of an object's members.
    pub fn of_members(alloc: Global, members: &Map<String, Value>) -> Result<Listed, OutOfMemory>
        ensures names { Yields result (names_of (fields members.now)) }
    {
        let mut names = BTreeSet::new(alloc);
        for (name, _) in members {
            names.insert(name.clone()?)?;
        }
        let ascending = Some(AscendingNames::of_members(alloc, members)?);
        Ok(Listed { names, ascending })
    }
}

impl Clone for Listed {
    ghost is_clone = { λ listed copy. copy ≡ listed };

    /// Returns a clone of the names.
    ///
    /// # Errors
    ///
    /// Out of memory.
    fn clone(&self) -> Result<Listed, AllocError> {
        let names = self.names.clone()?;
        let ascending = self.ascending.clone()?;
        Ok(Listed { names, ascending })
    }
}
