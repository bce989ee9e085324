//! How answers are shown.
ghost use Rattle.std.specs.Prelude.{◌≡◌, Bool};
ghost use Rattle.command_line.specs.Choices.{color_named, paint_by};

use crate::options::Output;

/// Whether verdicts are coloured, for a terminal.
#[derive(Clone, Copy, Debug, PartialEq, Eq)]
pub enum Paint {
    Plain,
    Coloured,
}

/// When verdicts are coloured.
#[derive(Clone, Copy, Debug, PartialEq, Eq)]
pub enum Color {
    /// If standard output is a terminal, and the environment does not say `NO_COLOR`.
    Auto,
    Always,
    Never,
}

impl Color {
    /// Returns the choice of this name.
    pub fn named(name: &str) -> Option<Color>
        ensures named { result ≡ color_named name.now }
    {
        match name {
            "auto" => Some(Color::Auto),
            "always" => Some(Color::Always),
            "never" => Some(Color::Never),
            _ => None,
        }
    }

    /// Returns how verdicts are painted, on an output that shows colors or not.
    pub fn paint(self, shows_colors: bool) -> Paint
        ensures paint { result ≡ paint_by self shows_colors }
    {
        let coloured = match self {
            Color::Auto => shows_colors,
            Color::Always => true,
            Color::Never => false,
        };
        if coloured {
            Paint::Coloured
        } else {
            Paint::Plain
        }
    }
}

/// How answers are shown.
#[derive(Clone, Copy, Debug, PartialEq, Eq)]
pub struct Style {
    pub output: Output,
    pub paint: Paint,
    /// Whether long values are shown whole.
    pub whole: bool,
}
