//! The command of the program `jsonschema_cli`, over an engine.
//!
//! It has the words of the command, the reading of files and lines, the reports of faults, the text
//! printed for an instance or a line, the counts of lines, and the exit status.
#![tactic(auto)]

mod answerer;
mod desk;
mod documents;
mod engine;
mod envelopes;
mod files;
mod line_files;
mod lines;
mod options;
mod outcomes;
mod pages;
mod reading;
mod reports;
mod styles;
mod supplies;
mod tally;
mod telling;
mod watch;
mod words;

pub use answerer::{Answer, Answerer, answer_by};
pub use desk::{Desk, Stop};
pub use documents::{Document, documents_of};
pub use engine::{Engine, answer_call};
pub use envelopes::{Subject, answered, flag, unanswered};
pub use lines::{cut_ending, is_blank};
pub use options::{Options, Output, Resource, STANDARD_INPUT, draft_named};
pub use outcomes::Outcome;
pub use pages::Page;
pub use reading::{Fault, value_of};
pub use reports::{
    fault_report, file_report, line_fault, line_report, unanswered_report, unread_report,
};
pub use styles::{Color, Paint, Style};
pub use supplies::{Supply, supply_of};
pub use tally::Tally;
pub use telling::{tell, tell_unlinked, tell_unparsed, tell_unread};
pub use watch::Watch;
pub use words::{given_words, options_in, say};
