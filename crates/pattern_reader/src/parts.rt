//! The parts of a group that are values.
use pattern_characters::Flags;
use pattern_trees::Look;

/// What the opening bracket of a group begins.
#[derive(Clone, Copy)]
pub(crate) enum Opening {
    /// A group that captures.
    Capture,
    /// A group that only groups, with the flags in it.
    Plain(Flags),
    /// A lookaround.
    Around(Look),
    /// No group, but flags up to the end of the group around.
    Inline(Flags),
}

/// What the body of a group becomes.
#[derive(Clone, Copy)]
pub(crate) enum Wrap {
    /// Itself.
    Plain,
    /// A group that captures, with this number.
    Capture(u32),
    /// A lookaround.
    Around(Look),
}
