//! The options that the words of a call choose.
ghost use Rattle.std.specs.Prelude.{◌≡◌, ◌++◌, ◌∷◌, IfSome, option_map};
ghost use Rattle.schema_drafts.specs.KeywordViews.{draft_of};
ghost use Rattle.command_line.specs.Choices.{draft_named, name_of, output_named};

use crate::styles::Color;
use schema_drafts::Draft;

/// The word for standard input.
pub const STANDARD_INPUT: &str = "-";

/// The form in which answers are printed.
#[derive(Clone, Copy, Debug, PartialEq, Eq)]
pub enum Output {
    /// Text for people.
    Text,
    /// The verdict, in JSON.
    Flag,
    /// The list of units, in JSON.
    List,
    /// The units that have the verdict, in JSON, as drafts 2019-09 and 2020-12 list them.
    Basic,
    /// The units of schema objects, one inside the other, in JSON.
    Hierarchical,
}

impl Output {
    /// Returns the word that chooses this output.
    pub fn name(self) -> &'static str
        ensures name { result.now ≡ name_of self }
    {
        match self {
            Output::Text => "text",
            Output::Flag => "flag",
            Output::List => "list",
            Output::Basic => "basic",
            Output::Hierarchical => "hierarchical",
        }
    }

    /// Returns the output that this word chooses.
    pub fn named(name: &str) -> Option<Output>
        ensures named { result ≡ output_named name.now }
    {
        match name {
            "text" => Some(Output::Text),
            "flag" => Some(Output::Flag),
            "list" => Some(Output::List),
            "basic" => Some(Output::Basic),
            "hierarchical" => Some(Output::Hierarchical),
            _ => None,
        }
    }
}

/// Returns the draft of this name.
pub fn draft_named(name: &str) -> Option<Draft>
    ensures named { option_map draft_of result ≡ draft_named name.now }
{
    match name {
        "4" => Some(Draft::Draft4),
        "6" => Some(Draft::Draft6),
        "7" => Some(Draft::Draft7),
        "2019-09" => Some(Draft::Draft201909),
        "2020-12" => Some(Draft::Draft202012),
        _ => None,
    }
}

/// A document that references find under a URI, and the file that holds it.
#[derive(Clone, Copy)]
pub struct Resource<'w> {
    pub uri: &'w str,
    pub file: &'w str,
}

impl<'w> Resource<'w> {
    /// Reads the words `URI=FILE`, whose URI ends before the first `=`.
    ///
    /// Returns `None` if there is no `=`, or nothing on one of its sides.
    pub fn named(words: &'w str) -> Option<Resource<'w>>
        ensures parts { IfSome result (λ r. words.now ≡ r.uri.now ++ 61 ∷ r.file.now) }
    {
        match words.split_once('=') {
            Some((uri, file)) if !uri.is_empty() && !file.is_empty() => Some(Resource {
                uri,
                file,
            }),
            _ => None,
        }
    }
}

/// The options that the words of a call choose.
#[derive(Drop)]
pub struct Options<'w> {
    pub schema: &'w str,
    /// Files of one instance each, and folders of such files.
    pub instances: Vec<&'w str>,
    /// A file with an instance on each line.
    pub lines: Option<&'w str>,
    pub resources: Vec<Resource<'w>>,
    /// Whether files are read that references of the schema lead to.
    pub linked: bool,
    /// The draft of the schema, whatever its `$schema` says.
    pub draft: Option<Draft>,
    /// Whether formats are asserted, if that is chosen.
    pub formats: Option<bool>,
    pub output: Output,
    pub color: Color,
    /// Whether nothing is written to standard output.
    pub quiet: bool,
    /// Whether long values are shown whole.
    pub verbose: bool,
    /// Whether the schema is checked against its meta-schema.
    pub checked: bool,
    pub run_limit: Option<u32>,
    pub work_limit: Option<u64>,
    pub depth_limit: Option<usize>,
    pub nested_limit: Option<usize>,
    /// Whether the progress through the lines is reported.
    pub progress: bool,
}

impl<'w> Options<'w> {
    /// Returns how many of the files are standard input.
    pub fn inputs(&self) -> usize {
        let mut count = usize::from(self.schema == STANDARD_INPUT);
        for file in &self.instances {
            count = count.saturating_add(usize::from(*file == STANDARD_INPUT));
        }
        if let Some(file) = self.lines {
            count = count.saturating_add(usize::from(file == STANDARD_INPUT));
        }
        for resource in &self.resources {
            count = count.saturating_add(usize::from(resource.file == STANDARD_INPUT));
        }
        count
    }
}
