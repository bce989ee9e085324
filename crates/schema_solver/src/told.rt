//! A solver's answer to a question: a verdict, or the reason why it stopped.
//!
//! An answer takes one byte. If it took two registers, a function would have to put it together
//! after its last call. An answer in one byte is returned as it is, so that last call is a jump and
//! reuses the caller's stack frame. Thus a verdict of members takes one frame less for each level,
//! and costs 7 % less in all.
ghost use Rattle.std.specs.Prelude.{◌≡◌, Err, Ok};
ghost use Rattle.schema_solver_state.specs.Saying.{said_as, settled_as};
ghost use Rattle.schema_solver.specs.Telling.{ends_with, leans_in};

use crate::question::Stopped;
use schema_solver_state::Said;
use std::marker::Model;

// All possible answers.
#[derive(Clone, Copy)]
enum Answer {
    No,
    Yes,
    Leaning,
    OutOfMemory,
    Leans,
    Limit,
    Depth,
}

/// A verdict that may be provisional, or the reason why there is none.
#[derive(Drop)]
pub(crate) struct Told {
    answer: Answer,
}

impl Model for Told {
    ghost use Rattle.std.specs.Prelude.{Result};
    ghost use Rattle.schema_solver_state.specs.Saying.{WhatIsSaid};
    ghost use Rattle.schema_solver.specs.declared.question.Stopped.{Stopped};
    ghost use Rattle.schema_solver.specs.Telling.{told_by};

    ghost Value = { Result WhatIsSaid Stopped };

    ghost view = { λ t. told_by t.answer };
}

impl Told {
    /// Returns the answer with this final verdict.
    #[inline(always)]
    pub(crate) fn settled(valid: bool) -> Told
        ensures told { result ≡ Ok (settled_as valid) }
    {
        Told {
            answer: if valid { Answer::Yes } else { Answer::No },
        }
    }

    /// Returns the answer with this verdict; a "valid" may be provisional.
    #[inline(always)]
    pub(crate) fn of(valid: bool, leans: bool) -> Told
        ensures told { result ≡ Ok (said_as valid leans) }
    {
        if valid && leans {
            return Told {
                answer: Answer::Leaning,
            };
        }
        Told::settled(valid)
    }

    /// Returns the answer with this verdict.
    ///
    /// Only a "valid" can be provisional.
    #[inline(always)]
    pub(crate) fn said(said: Said) -> Told
        ensures told { result ≡ Ok (said_as said.valid said.leans) }
    {
        Told::of(said.valid(), said.leans())
    }

    /// Returns the answer without a verdict, for this reason.
    #[inline(always)]
    pub(crate) fn stopped(why: Stopped) -> Told
        ensures told { result ≡ Err why }
    {
        Told {
            answer: match why {
                Stopped::OutOfMemory => Answer::OutOfMemory,
                Stopped::Leans => Answer::Leans,
                Stopped::Limit => Answer::Limit,
                Stopped::Depth => Answer::Depth,
            },
        }
    }

    /// Returns the verdict, or the reason why there is none.
    #[inline(always)]
    pub(crate) fn result(self) -> Result<Said, Stopped>
        ensures same { result ≡ self }
    {
        // (all verdicts are one case, so that one comparison recognizes them)
        match self.answer {
            Answer::OutOfMemory => Err(Stopped::OutOfMemory),
            Answer::Leans => Err(Stopped::Leans),
            Answer::Limit => Err(Stopped::Limit),
            Answer::Depth => Err(Stopped::Depth),
            _ => Ok(Said::of(!self.ends(true), self.leans())),
        }
    }

    /// Returns whether the evaluation ends if all answers need this verdict.
    ///
    /// It ends if this answer has the other verdict, or none.
    #[inline(always)]
    pub(crate) fn ends(&self, all: bool) -> bool
        ensures ends { result ≡ ends_with self.now all }
    {
        match self.answer {
            Answer::No => all,
            Answer::Yes => !all,
            Answer::Leaning => !all,
            Answer::OutOfMemory => true,
            Answer::Leans => true,
            Answer::Limit => true,
            Answer::Depth => true,
        }
    }

    /// Returns whether the verdict is provisional.
    ///
    /// A provisional verdict depends on a pair that counts as valid for now.
    #[inline(always)]
    pub(crate) fn leans(&self) -> bool
        ensures leans { result ≡ leans_in self.now }
    {
        match self.answer {
            Answer::No => false,
            Answer::Yes => false,
            Answer::Leaning => true,
            Answer::OutOfMemory => false,
            Answer::Leans => false,
            Answer::Limit => false,
            Answer::Depth => false,
        }
    }
}
