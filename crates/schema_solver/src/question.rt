//! The parts of a solver, its questions, and the reasons why it may stop.
ghost use Rattle.std.specs.Prelude.{◌≡◌, ◌+◌, false, min, true};
ghost use Rattle.schema_run_context.specs.Works.{HasRoom};

use schema_node_table::Nodes;
use schema_reports::Instance;
use schema_run_steps::EvaluationPlace;
use schema_solver_state::Followed;
use std::alloc::{AllocError, Global};

/// The parts that a solver is made with. It does not change them.
#[derive_where(Clone, Copy)]
pub struct SolverEngine<'r, K, M> {
    pub nodes: &'r Nodes<K>,
    pub alloc: Global,
    pub matcher: &'r M,
    pub followed: &'r Followed,
    /// How many pairs it may begin, if there is a limit.
    pub most: Option<u64>,
    /// How many evaluations may be under way at once, if there is a limit.
    pub deepest: Option<usize>,
}

impl<'r, K, M> SolverEngine<'r, K, M> {
    /// Returns whether one more evaluation may begin while this many are under way.
    #[inline(always)]
    pub fn has_room(&self, depth: usize) -> bool
        ensures room { result ≡ true → HasRoom self.now.deepest depth }
        ensures full { result ≡ false → ¬ (HasRoom self.now.deepest depth) }
    {
        match self.deepest {
            None => true,
            Some(most) => depth < most,
        }
    }
}

/// The instance that is evaluated, and its place. A verdict shows no path.
///
/// `depth` is how many evaluations are under way: of children of keywords, of references with other
/// entries beside them, and of pairs. A reference that is alone asks its question in place of its
/// own.
#[derive(Clone, Copy)]
pub struct Asked<'q, 'i> {
    pub instance: Instance<'i>,
    pub place: &'q EvaluationPlace<'q, 'i>,
    pub depth: usize,
}

impl<'q, 'i> Asked<'q, 'i> {
    /// Returns the depth of a question that a keyword or a pair asks in answer to this one.
    #[inline(always)]
    pub fn depth_below(&self) -> usize
        ensures deeper { result ≡ min (self.now.depth + 1) 18446744073709551615 }
    {
        self.depth.saturating_add(1)
    }
}

/// Why a solver returns no verdict.
///
/// It is out of memory; or a keyword that does not say that it is monotone got a provisional
/// "valid" (`Leans`); or it may begin no more pairs (`Limit`), or no more evaluations inside those
/// that are under way (`Depth`).
#[derive(Clone, Copy)]
pub enum Stopped {
    OutOfMemory,
    Leans,
    Limit,
    Depth,
}

impl From<AllocError> for Stopped {
    ghost use Rattle.schema_solver.specs.declared.question.Stopped.TheVariants as stopped;

    ghost from_gives = { λ _ e. e ≡ stopped.OutOfMemory };

    fn from(_refused: AllocError) -> Stopped {
        Stopped::OutOfMemory
    }
}
