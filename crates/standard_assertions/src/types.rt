//! `type` (JSON Schema Validation 2020-12, 6.1.1).
ghost use Rattle.std.specs.Prelude.{◌≡◌};
ghost use Rattle.schema_reports.specs.InstanceViews.{subject_of};
ghost use Rattle.schema_reports.specs.Owned.{value_of};
ghost use Rattle.standard_assertions.specs.Types.{fits, fits_one, is_integer_valued};

use json_values::is_integer_valued;
use schema_reports::Instance;
use standard_basics::TypeName;
use std::alloc::AllocError;
use std::marker::Model;

/// The numbers that count as integers.
#[derive(Clone, Copy)]
pub enum Integers {
    /// Those that are written with no fraction and no exponent, as in draft 4.
    Written,
    /// Those whose value has no fraction, as in every later draft: 1.0 is one.
    Valued,
}

/// A list of types.
///
/// Contracts see only the types, so that a keyword that stores one is its own shape.
#[derive(Drop)]
pub struct TypeList {
    pub names: Vec<TypeName>,
}

impl Model for TypeList {
    ghost use Rattle.std.specs.Prelude.{List};
    ghost use Rattle.standard_basics.specs.declared.type_names.TypeName.{TypeName};

    ghost Value = { List TypeName };

    ghost view = { λ types. types.names.items };
}

impl Clone for TypeList {
    ghost is_clone = { λ types copy. copy ≡ types };

    /// Returns a clone of the list.
    ///
    /// # Errors
    ///
    /// Out of memory.
    fn clone(&self) -> Result<TypeList, AllocError> {
        let names = self.names.clone()?;
        Ok(TypeList { names })
    }
}

/// Returns whether an instance has the type; a name counts as a text.
pub fn fits(integers: Integers, name: TypeName, instance: Instance<'_>) -> bool
    ensures fits { result ≡ fits integers name (subject_of instance.entry) }
{
    match integers {
        Integers::Written => name.fits(instance),
        Integers::Valued => match name {
            TypeName::Integer => is_integer(instance),
            _ => name.fits(instance),
        },
    }
}

/// Returns whether an instance is a number with no fraction.
fn is_integer(instance: Instance<'_>) -> bool
    ensures integer { result ≡ is_integer_valued (value_of (subject_of instance.entry)) }
{
    match instance {
        Instance::Name(_) => false,
        Instance::Value(value) => is_integer_valued(value),
    }
}

/// Returns whether an instance has one of the types.
pub fn fits_one(integers: Integers, types: &TypeList, instance: Instance<'_>) -> bool
    ensures fits { result ≡ fits_one integers types.now (subject_of instance.entry) }
{
    types
        .names
        .iter()
        .any(|name| fits(integers, *name, instance))
}
