//! The place where answers are written.
ghost use Rattle.std.specs.Prelude.{◌≡◌, IsSome, false, is_some, max, true};
ghost use Rattle.command_line.specs.Outcomes.{code_of, outcome_told};
ghost use Rattle.command_line.specs.Tallies.{counted, no_instances, outcome_of};

use crate::options::{Options, Output};
use crate::outcomes::Outcome;
use crate::pages::Page;
use crate::styles::Style;
use crate::tally::Tally;
use std::alloc::{AllocError, AllocFailed};
use std::env;
use std::io::{IsTerminal, Stdout};

const MORE_MEMORY: &str = "ask of smaller documents, or give the process more memory";

const WRITTEN: &str = "write where there is room, to a file or a pipe that stays open to the end";

/// Why a run ends before every instance is answered.
#[derive(Clone, Copy, Debug, PartialEq, Eq)]
pub enum Stop {
    /// The reason is already reported on standard error.
    Told,
    OutOfMemory,
}

impl From<AllocError> for Stop {
    fn from(_refused: AllocError) -> Stop {
        Stop::OutOfMemory
    }
}

impl<T: Drop> From<AllocFailed<T>> for Stop {
    fn from(_refused: AllocFailed<T>) -> Stop {
        Stop::OutOfMemory
    }
}

// Returns the outcome of a run, by the outcome of its instances. Reports lack of memory.
fn unless_stopped(rt: &HostRuntime, outcome: Outcome, ended: Result<(), Stop>) -> Outcome
    ensures told { result ≡ outcome_told false outcome ended }
{
    match ended {
        Ok(()) => outcome,
        Err(Stop::Told) => Outcome::Unanswered,
        Err(Stop::OutOfMemory) => {
            let _ = eprintln!(rt; "out of memory\nhint: {MORE_MEMORY}");
            Outcome::Unanswered
        }
    }
}

/// Returns whether the environment asks for no colors: `NO_COLOR` is there and not empty.
fn asks_for_no_color(rt: &HostRuntime) -> bool {
    match env::var(rt, "NO_COLOR") {
        Ok(value) => !value.is_empty(),
        Err(_absent) => false,
    }
}

/// Standard output, how answers are shown on it, and the count of the instances.
#[derive(Drop)]
pub struct Desk {
    pub page: Page<Stdout>,
    pub style: Style,
    /// Whether nothing is written.
    pub quiet: bool,
    /// The instances that were answered for, or have no answer.
    pub tally: Tally,
}

impl Desk {
    /// Creates a desk on standard output, as the options choose.
    pub fn new(rt: &HostRuntime, options: &Options<'_>) -> Desk
        ensures none { result.tally ≡ no_instances }
    {
        let out = rt.stdout();
        let shows_colors = out.is_terminal() && !asks_for_no_color(rt);
        Desk {
            page: Page::new(out),
            style: Style {
                output: options.output,
                paint: options.color.paint(shows_colors),
                whole: options.verbose,
            },
            quiet: options.quiet,
            tally: Tally::new(),
        }
    }

    /// Writes a text, unless the desk is quiet or the text is empty.
    pub fn put(&mut self, text: &str)
        ensures tally { self.new.tally ≡ self.old.tally }
        ensures quiet { self.old.quiet ≡ true → self.new ≡ self.old }
        ensures stopped { IsSome self.old.page.fault → self.new ≡ self.old }
    {
        if !self.quiet && !text.is_empty() {
            self.page.put(text);
        }
    }

    /// Writes a line that sums up: to the desk if the output is text, else to standard error.
    pub fn say(&mut self, rt: &HostRuntime, line: &str)
        ensures tally { self.new.tally ≡ self.old.tally }
    {
        match self.style.output {
            Output::Text => {
                self.put(line);
                self.put("\n");
            }
            _ => {
                let _ = eprintln!(rt; "{line}");
            }
        }
    }

    /// Writes the text about an instance, and counts the instance with its outcome.
    pub fn write(&mut self, answer: (Outcome, String))
        ensures counted { self.new.tally ≡ counted answer.0 self.old.tally }
        ensures together { code_of (outcome_of self.new.tally) ≡ max (code_of (outcome_of self.old.tally)) (code_of answer.0) }
        ensures stopped { IsSome self.old.page.fault → self.new.page ≡ self.old.page }
    {
        let (outcome, text) = answer;
        self.put(text.as_str());
        drop(text);
        self.tally.count(outcome);
    }

    /// Returns the outcome of a run, which may have been stopped.
    ///
    /// It is the worst outcome of its instances. Reports what is not reported yet: lack of memory,
    /// or an answer that could not be written.
    pub fn outcome_of(&self, rt: &HostRuntime, ended: Result<(), Stop>) -> Outcome
        ensures told { result ≡ outcome_told (is_some self.now.page.fault) (outcome_of self.now.tally) ended }
    {
        let outcome = unless_stopped(rt, self.tally.outcome(), ended);
        match &self.page.fault {
            None => outcome,
            Some(fault) => {
                let _ = eprintln!(rt;
                    "standard output cannot be written: {fault}\nhint: {WRITTEN}"
                );
                Outcome::Unanswered
            }
        }
    }
}
