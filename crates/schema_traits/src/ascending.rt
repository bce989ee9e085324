//! Names in ascending order, like those of an object's members.
ghost use Rattle.std.specs.Prelude.{◌≡◌, drop, map, string_bytes};
ghost use Rattle.std.specs.Rc.{rc_str_bytes};
ghost use Rattle.schema_traits.specs.Showing.{Yields};
ghost use Rattle.std.specs.List.Sorted.{IsStrictlySortedBy};
ghost use Rattle.std.specs.Cmp.Lexicographic.{slice_cmp};
ghost use Rattle.std.specs.Ordering.{nat_cmp};
ghost use Rattle.std.specs.Map.{keys_of};
ghost use Rattle.schema_traits.specs.Ascending.{place_from};

use schema_reports::OutOfMemory;
use serde_json::{Map, Value};
use std::alloc::{AllocError, Global};
use std::marker::Model;
use std::rc::RcStr;

/// Distinct names in ascending order of their bytes.
///
/// Each name is shared with its other owners. Contracts see the list of the names.
#[derive(Drop)]
pub struct AscendingNames {
    names: Vec<RcStr>,
}

impl Model for AscendingNames {
    ghost use Rattle.std.specs.Cmp.Lexicographic.{slice_cmp};
    ghost use Rattle.std.specs.List.Sorted.{IsStrictlySortedBy};
    ghost use Rattle.std.specs.Ordering.{nat_cmp};
    ghost use Rattle.std.specs.Prelude.{List, map};
    ghost use Rattle.std.specs.Rc.{rc_str_bytes};
    ghost use Rattle.theory_definitions.specs.Instance.{Text};

    ghost Value = { List Text };

    ghost view = { λ names. map rc_str_bytes names.names.items };

    ghost invariant = { λ names. IsStrictlySortedBy (slice_cmp nat_cmp) (map rc_str_bytes names.names.items) };
}

impl AscendingNames {
    /// Returns the names of an object's members.
    pub fn of_members(
        alloc: Global,
        members: &Map<String, Value>,
    ) -> Result<AscendingNames, OutOfMemory>
        ensures names { Yields result (map string_bytes (keys_of members.now.entries)) }
    {
        let mut names = Vec::with_capacity(alloc, members.len())?;
        for (name, _) in members {
            names.push(RcStr::from_str(alloc, name.as_str())?)?;
        }
        Ok(AscendingNames { names })
    }

    /// Returns the names as a slice.
    pub fn as_slice(&self) -> &[RcStr]
        ensures names { map rc_str_bytes result.now ≡ self.now }
    {
        self.names.as_slice()
    }

    /// Looks a name up, from an index on.
    ///
    /// Returns the index of the first name at or after `from` that is not below `name`, and whether
    /// that name is `name` itself. If there is none, the index is the one after the last. Allocates
    /// nothing.
    #[inline(always)]
    pub fn place_from(&self, from: usize, name: &str) -> (usize, bool)
        ensures place { (result.0, result.1) ≡ place_from name.now from (drop from self.now) }
        ensures ascend { IsStrictlySortedBy (slice_cmp nat_cmp) self.now }
    {
        let names = self.names.as_slice();
        let mut place = from;
        while place < names.len() {
            let other = names[place].as_str();
            if other == name {
                return (place, true);
            }
            if name < other {
                return (place, false);
            }
            place += 1;
        }
        (place, false)
    }
}

impl Clone for AscendingNames {
    ghost is_clone = { λ names copy. copy ≡ names };

    /// Returns a copy, which shares the names.
    fn clone(&self) -> Result<AscendingNames, AllocError> {
        let names = self.names.clone()?;
        Ok(AscendingNames { names })
    }
}
