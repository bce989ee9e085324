//! The reasons why the program has no answer.
ghost use Rattle.bench_program.specs.ProgramFaults.{fault_of, fault_text, word_name};
ghost use Rattle.bench_program.specs.ProgramRuns.{fault_status};
ghost use Rattle.std.specs.Prelude.{◌≡◌, Some};

use crate::program::Status;
use schema_keys::BuildError;
use std::alloc::{AllocError, AllocFailed};
use std::fmt;

/// An argument that must be JSON.
#[derive(Clone, Copy, Debug, PartialEq, Eq)]
pub enum Word {
    Schema,
    Instance,
    Unfinished,
}

/// The reason why the program has no answer.
#[derive(Clone, Copy, Debug, PartialEq, Eq)]
pub enum Fault {
    /// There are too few or too many arguments, or MODE names no call.
    Usage,
    /// An argument is not JSON, or UNFINISHED is not a list of texts.
    NotJson(Word),
    /// The schema is refused, with the number of the refusal.
    BuildRefused(u8),
    OutOfMemory,
}

impl Fault {
    /// Returns the status with which the program ends.
    pub fn status(self) -> Status
        ensures status { result ≡ fault_status self }
    {
        match self {
            Fault::Usage => Status::BadWords,
            Fault::NotJson(_) => Status::BadWords,
            Fault::BuildRefused(_) => Status::BuildRefused,
            Fault::OutOfMemory => Status::OutOfMemory,
        }
    }
}

impl fmt::Display for Word {
    ghost output = { λ w. Some (word_name w) };

    fn fmt<W: fmt::Write>(&self, f: &mut fmt::Formatter<W>) -> fmt::Result {
        match self {
            Word::Schema => write!(f, "SCHEMA"),
            Word::Instance => write!(f, "INSTANCE"),
            Word::Unfinished => write!(f, "UNFINISHED"),
        }
    }
}

impl fmt::Display for Fault {
    ghost output = { λ e. Some (fault_text e) };

    fn fmt<W: fmt::Write>(&self, f: &mut fmt::Formatter<W>) -> fmt::Result {
        match self {
            Fault::Usage => write!(f, "usage: engine_bench MODE SCHEMA INSTANCE [UNFINISHED]"),
            Fault::NotJson(word) => write!(f, "not JSON: {word}"),
            Fault::BuildRefused(number) => write!(f, "build refused: {number}"),
            Fault::OutOfMemory => write!(f, "out of memory"),
        }
    }
}

impl From<AllocError> for Fault {
    ghost use Rattle.bench_program.specs.declared.program.faults.Fault.TheVariants.{OutOfMemory};

    ghost from_gives = { λ _ f. f ≡ OutOfMemory };

    fn from(_refused: AllocError) -> Fault {
        Fault::OutOfMemory
    }
}

impl<T: Drop> From<AllocFailed<T>> for Fault {
    ghost use Rattle.bench_program.specs.declared.program.faults.Fault.TheVariants.{OutOfMemory};

    ghost from_gives = { λ _ f. f ≡ OutOfMemory };

    fn from(_refused: AllocFailed<T>) -> Fault {
        Fault::OutOfMemory
    }
}

impl From<BuildError> for Fault {
    ghost use Rattle.bench_program.specs.ProgramFaults.{fault_of};

    ghost from_gives = { λ e f. f ≡ fault_of e };

    fn from(error: BuildError) -> Fault {
        match error {
            BuildError::OutOfMemory => Fault::OutOfMemory,
            _ => Fault::BuildRefused(error.number()),
        }
    }
}
