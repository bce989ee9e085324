//! Gates, and the runs of keywords that have gates.
//!
//! The head of the crate says what a gate is.
ghost use Rattle.std.specs.Prelude.{◌≡◌, [], OnOk};
ghost use Rattle.schema_traits.specs.KeywordViews.{mode_of};
ghost use Rattle.standard_pattern_properties.specs.GateMoves.{run_begin};
ghost use Rattle.standard_pattern_properties.specs.Gates.{opens};
ghost use Rattle.standard_pattern_properties.specs.declared.gates.GateStage.TheVariants.{Ended};
ghost use Rattle.keyword_authoring.specs.Borrowing.{Borrows};
ghost use Rattle.standard_pattern_properties.specs.RunWords.{TakesAsked};

use crate::names::{NamesLeft, Texts};
use keyword_authoring::take;
use schema_reports::OutOfMemory;
use schema_traits::{Answer, Mode, Reply};
use std::alloc::Global;

/// The condition of a gate: one of its patterns matches a name, or none does.
#[derive(Clone, Copy)]
pub enum Condition {
    OneMatches,
    NoneMatches,
}

/// A child that is evaluated at a member if the condition holds for its name.
#[derive(Clone, Copy)]
pub struct Gate<'s> {
    pub condition: Condition,
    pub patterns: &'s [String],
    pub child: usize,
}

/// The stage of a run.
///
/// Gates and patterns are given by their numbers.
#[derive(Clone, Copy)]
pub enum GateStage {
    /// Before the first turn.
    Begun,
    /// After the match of a pattern of a gate.
    Tested { gate: usize, pattern_index: usize },
    /// After the evaluation of a gate's child.
    Asked { gate: usize },
    Ended,
}

/// A run of a keyword with gates.
///
/// `names` are those of the members that are left, the current one first. `left` are the names
/// that the keyword's error shows.
#[derive(Drop)]
pub struct GateRun {
    pub mode: Mode,
    pub stage: GateStage,
    pub names: NamesLeft,
    pub left: Texts,
}

/// The outcome of a turn.
///
/// Gates and patterns are given by their numbers.
#[derive(Clone, Copy)]
pub enum Move<'s> {
    /// Ends the run.
    Halt,
    /// Asks whether a pattern of a gate matches the current member's name.
    Test {
        gate: usize,
        pattern_index: usize,
        pattern: &'s str,
        name: &'s str,
    },
    /// Evaluates a gate's child at the current member.
    Ask {
        gate: usize,
        child: usize,
        name: &'s str,
    },
}

/// Returns whether a gate is open, given whether one of its patterns matches.
pub fn opens(condition: Condition, matched: bool) -> bool
    ensures opens { result ≡ opens condition matched }
{
    match condition {
        Condition::OneMatches => matched,
        Condition::NoneMatches => !matched,
    }
}

impl GateRun {
    /// Returns a run before its first turn, with these members left.
    pub fn begin(alloc: Global, mode: Mode, names: NamesLeft) -> GateRun
        ensures begins { run_begin (mode_of mode) names ≡ result }
    {
        GateRun {
            mode,
            stage: GateStage::Begun,
            names,
            left: Texts::none(alloc),
        }
    }

    /// Ends the run.
    pub fn end(&mut self, alloc: Global)
        ensures ended { self.new ≡ record { mode = self.old.mode; stage = Ended; names = []; left = [] } }
    {
        self.stage = GateStage::Ended;
        self.names = NamesLeft::none(alloc);
        self.left = Texts::none(alloc);
    }
}

/// Takes the answer of a gate's child, if the last turn evaluated one.
pub fn take_asked<'i>(
    alloc: Global,
    stage: GateStage,
    reply: Reply<'i>,
    answer: &mut Answer<'i>,
) -> Result<(), OutOfMemory>
    ensures answered { OnOk result (TakesAsked stage reply.entry answer.old answer.new) }
    ensures borrows { Borrows reply.entry answer.old answer.new result }
{
    match stage {
        GateStage::Asked { .. } => take(alloc, reply, answer),
        _ => {
            drop(reply);
            Ok(())
        }
    }
}
