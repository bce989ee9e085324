//! The names that a run holds.
ghost use Rattle.std.specs.Prelude.{◌≡◌, [], map, string_bytes};
ghost use Rattle.schema_reports.specs.InstanceViews.{subject_of};
ghost use Rattle.keyword_authoring.specs.Members.{names_in, subject_names};
ghost use Rattle.schema_traits.specs.Showing.{Yields};
ghost use Rattle.schema_traits.specs.Readings.{fields};

use keyword_authoring::Progress;
use schema_reports::{Instance, OutOfMemory};
use serde_json::{Map, Value};
use std::alloc::Global;
use std::marker::Model;

/// A list of names, in order.
#[derive(Drop)]
pub struct Names {
    texts: Vec<String>,
}

impl Model for Names {
    ghost use Rattle.std.specs.Prelude.{List, map, string_bytes};
    ghost use Rattle.theory_definitions.specs.Instance.{Text};

    ghost Value = { List Text };

    ghost view = { λ names. map string_bytes names.texts.items };
}

/// A keyword's run, with the names at which it evaluates its child.
#[derive(Drop)]
pub struct NamesRun {
    pub progress: Progress,
    pub names: Names,
}

impl Names {
    /// Returns an empty list.
    pub fn none(alloc: Global) -> Names
        ensures none { result ≡ [] }
    {
        Names {
            texts: Vec::new(alloc),
        }
    }

    /// Returns the names as a slice.
    pub fn as_slice(&self) -> &[String]
        ensures names { map string_bytes result.now ≡ self.now }
    {
        self.texts.as_slice()
    }

    fn of_members(alloc: Global, members: &Map<String, Value>) -> Result<Names, OutOfMemory>
        ensures names { Yields result (names_in (fields members.now)) }
    {
        let mut texts = Vec::new(alloc);
        for (name, _) in members {
            texts.push(String::from_str(alloc, name.as_str())?)?;
        }
        Ok(Names { texts })
    }

    /// Returns the names of the instance's members.
    ///
    /// There are none if the instance is no object.
    ///
    /// # Errors
    ///
    /// Out of memory.
    pub fn of(alloc: Global, instance: Instance<'_>) -> Result<Names, OutOfMemory>
        ensures names { Yields result (subject_names (subject_of instance.entry)) }
    {
        match instance {
            Instance::Name(_) => Ok(Names::none(alloc)),
            Instance::Value(value) => match value.as_object() {
                Some(members) => Names::of_members(alloc, members),
                None => Ok(Names::none(alloc)),
            },
        }
    }
}
