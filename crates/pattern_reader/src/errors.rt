//! Why a text is refused, and where.
ghost use Rattle.std.specs.Prelude.{◌≡◌, Some};
ghost use Rattle.pattern_characters.specs.Faults.{kind_of};
ghost use Rattle.pattern_reader.specs.Errors.{error_text};

use pattern_characters::{Fault, Kind};
use std::error::Error;
use std::fmt;

/// A fault, and how many characters are left where it is.
#[derive(Clone, Copy, Debug)]
pub(crate) struct Refusal {
    pub(crate) fault: Fault,
    pub(crate) left: usize,
}

/// Why a text is no pattern that is read, and at which of its characters.
#[derive(Clone, Copy, Debug)]
pub struct ReadError {
    /// What is wrong.
    pub fault: Fault,
    /// The index of the character where the wrong part begins.
    ///
    /// It is the length of the text if only its end shows the fault.
    pub position: usize,
}

impl ReadError {
    /// Tells whether the text is no pattern, or none that is supported.
    pub fn kind(&self) -> Kind
        ensures kind { result ≡ kind_of self.now.fault }
    {
        self.fault.kind()
    }
}

/// Displays as `no pattern: a class has no closing bracket, at character 3`.
///
/// The first character has the number 0.
impl fmt::Display for ReadError {
    ghost output = { λ e. Some (error_text e) };

    fn fmt<W: fmt::Write>(&self, f: &mut fmt::Formatter<W>) -> fmt::Result {
        let kind = self.kind().text();
        let text = self.fault.text();
        write!(f, "{}: {}, at character {}", kind, text, self.position)
    }
}

impl Error for ReadError {}
