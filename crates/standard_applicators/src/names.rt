//! The names that a keyword stores.
ghost use Rattle.std.specs.Prelude.{◌≡◌, map, string_bytes};

use std::alloc::AllocError;
use std::marker::Model;

/// A list of names, in order.
#[derive(Drop)]
pub struct Names {
    texts: Vec<String>,
}

impl Model for Names {
    ghost use Rattle.std.specs.Prelude.{List, map, string_bytes};
    ghost use Rattle.theory_definitions.specs.Instance.{Text};

    ghost Value = { List Text };

    ghost view = { λ names. map string_bytes names.texts.items };
}

impl Names {
    /// Returns the texts as names.
    pub fn new(texts: Vec<String>) -> Names
        ensures names { result ≡ map string_bytes texts.items }
    {
        Names { texts }
    }

    /// Returns the names as a slice.
    pub fn as_slice(&self) -> &[String]
        ensures names { map string_bytes result.now ≡ self.now }
    {
        self.texts.as_slice()
    }
}

impl Clone for Names {
    ghost is_clone = { λ names copy. copy ≡ names };

    /// Returns a clone of the names.
    ///
    /// # Errors
    ///
    /// Out of memory.
    #[tactic(auto, using(crate::proofs::ToldAlike::told_alike))]
    fn clone(&self) -> Result<Names, AllocError> {
        let texts = self.texts.clone()?;
        Ok(Names { texts })
    }
}
