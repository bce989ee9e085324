//! The parts that a run is made with, and the questions that it answers.
//!
//! A question is open until it has its answer. How many others are open then is passed down with
//! it, so nothing has to be put back when it is answered.
ghost use Rattle.std.specs.Prelude.{◌≡◌, ◌⊎◌, OnErr, OnOk, false, suc, true};
ghost use Rattle.schema_run_context.specs.EvaluationPaths.{edges_in};
ghost use Rattle.schema_run_context.specs.Works.{Asks, HasRoom, IsSpent};
ghost use Rattle.schema_run_steps.specs.Depths.{StandsDeep, held};

use crate::evaluation_place::EvaluationPlace;
use schema_node_table::{KeywordName, Nodes};
use schema_reports::{Instance, OutOfMemory};
use schema_run_context::{EvaluationPath, ValidationContext};
use schema_traits::{Edge, Mode};
use std::alloc::{AllocError, Global};

/// The parts that a run is made with, and that it does not change.
#[derive_where(Clone, Copy)]
pub struct Engine<'r, K, M> {
    pub nodes: &'r Nodes<K>,
    pub alloc: Global,
    pub matcher: &'r M,
    /// How many questions may be open at once, if there is a limit.
    pub deepest: Option<usize>,
}

impl<'r, K, M> Engine<'r, K, M> {
    /// Returns whether a question at this depth may be opened.
    #[inline(always)]
    pub fn has_room(&self, depth: usize) -> bool
        ensures room { result ≡ true → HasRoom self.now.deepest depth }
        ensures full { result ≡ false → ¬ (HasRoom self.now.deepest depth) }
    {
        match self.deepest {
            None => true,
            Some(most) => depth < most,
        }
    }
}

/// An instance to validate, with its place, the path to it, and the mode.
///
/// `depth` is how many other questions are open while this one is: one for each edge of the path.
#[derive(Clone, Copy)]
pub struct Question<'q, 'i> {
    pub instance: Instance<'i>,
    pub place: &'q EvaluationPlace<'q, 'i>,
    pub path: &'q EvaluationPath<'q>,
    pub mode: Mode,
    pub depth: usize,
}

impl<'q, 'i> Question<'q, 'i> {
    /// Returns the depth of a question one edge further.
    #[inline(always)]
    pub fn depth_below(&self) -> usize
        ensures deeper { StandsDeep self.now → result ≡ held (suc (edges_in self.now.path.now)) }
    {
        self.depth.saturating_add(1)
    }
}

/// Opens a question: counts the evaluation of its node.
///
/// # Errors
///
/// Returns an error exactly if as many questions are open as may be, or no nodes are left. Then the
/// budget says which.
#[inline(always)]
pub fn open_question<'i, K, M>(
    engine: &Engine<'_, K, M>,
    question: &Question<'_, 'i>,
    context: &mut ValidationContext<'i>,
) -> Result<(), OutOfMemory>
    ensures asks { OnOk result (Asks context.old.work context.new.work) }
    ensures room { OnOk result (HasRoom engine.now.deepest question.now.depth) }
    ensures stops { OnErr result (IsSpent context.old.work ⊎ ¬ (HasRoom engine.now.deepest question.now.depth)) }
    ensures frame { context.new ≡ record context.old { work = context.new.work } }
{
    if !engine.has_room(question.depth) {
        context.stop_at_depth();
        return Err(AllocError);
    }
    context.step()?;
    Ok(())
}

/// A keyword, its name, and the edges that its maker got for its requests.
#[derive_where(Clone, Copy)]
pub struct NamedKeyword<'k, K> {
    pub name: &'k KeywordName,
    pub keyword: &'k K,
    pub children: &'k [Option<Edge>],
}
