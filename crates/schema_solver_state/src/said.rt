//! A solver's verdict on a question, which may be provisional.
//!
//! A verdict takes one byte, and two with the tag of a result. When it took three with the tag and
//! each call of the solver returned it, this made up 3 % of a verdict's cost. Now the calls of the
//! solver return `Told`.
//!
//! A "valid" is provisional or not; the lowest depth of what it depends on is not kept. With
//! that depth, a cycle that is entered beside another pair at its place would be settled sooner,
//! but few schemas have such a cycle.
ghost use Rattle.std.specs.Prelude.{◌≡◌};
ghost use Rattle.schema_solver_state.specs.Saying.{said_as, settled_as};

use std::marker::Model;

// The three possible answers.
#[derive(Clone, Copy)]
enum Answer {
    No,
    Yes,
    Leaning,
}

/// A verdict so far, and whether it is provisional.
///
/// A provisional verdict depends on a pair that counts as valid for now, because it is in progress
/// or assumed. Only a "valid" is provisional. An "invalid" is final, whatever happens to such a
/// pair.
#[derive(Drop)]
pub struct Said {
    answer: Answer,
}

impl Model for Said {
    ghost use Rattle.schema_solver_state.specs.Saying.{WhatIsSaid, said_by};

    ghost Value = { WhatIsSaid };

    ghost view = { λ s. said_by s.answer };
}

impl Said {
    /// Returns this verdict as a final one.
    #[inline(always)]
    pub fn settled(valid: bool) -> Said
        ensures said { result ≡ settled_as valid }
    {
        Said {
            answer: if valid { Answer::Yes } else { Answer::No },
        }
    }

    /// Returns this verdict; a "valid" is provisional if `leans` says so.
    #[inline(always)]
    pub fn of(valid: bool, leans: bool) -> Said
        ensures said { result ≡ said_as valid leans }
    {
        if valid && leans {
            return Said {
                answer: Answer::Leaning,
            };
        }
        Said::settled(valid)
    }

    /// Returns the verdict.
    #[inline(always)]
    pub fn valid(&self) -> bool
        ensures valid { result ≡ self.now.valid }
    {
        match self.answer {
            Answer::No => false,
            Answer::Yes => true,
            Answer::Leaning => true,
        }
    }

    /// Returns whether the verdict is provisional.
    #[inline(always)]
    pub fn leans(&self) -> bool
        ensures leans { result ≡ self.now.leans }
    {
        match self.answer {
            Answer::No => false,
            Answer::Yes => false,
            Answer::Leaning => true,
        }
    }
}
