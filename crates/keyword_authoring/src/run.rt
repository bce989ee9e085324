//! The progress of a run.
ghost use Rattle.std.specs.Prelude.{◌≡◌};
ghost use Rattle.schema_traits.specs.KeywordViews.{mode_of};
ghost use Rattle.keyword_authoring.specs.Ways.{way_begin};

use schema_traits::Mode;

/// The stage of a run: before its first turn, after a question, or at its end.
///
/// A question is identified by its position.
#[derive(Clone, Copy)]
pub enum Stage {
    Begun,
    Asked(usize),
    /// After the question at this position, with this many accepted before it.
    Counted(usize, usize),
    Ended,
}

/// The run of a keyword: its mode and its stage.
#[derive(Clone, Copy)]
pub struct Progress {
    pub mode: Mode,
    pub stage: Stage,
}

impl Progress {
    /// Returns a run in this mode, before its first turn.
    pub fn begin(mode: Mode) -> Progress
        ensures begins { way_begin (mode_of mode) ≡ result }
    {
        Progress {
            mode,
            stage: Stage::Begun,
        }
    }
}
