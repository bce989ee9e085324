//! Rows of tests for the engine, which do not depend on the engine.
//!
//! The crate defines cases, reads and grows rows, writes results as values, and compares answers
//! with the ones that rows want, whoever answers. It also has the tables of rows that tests read.
#![tactic(auto)]

mod answers;
mod asking;
mod call;
mod case;
mod comparing;
mod equality;
mod growing;
mod judging;
mod reading;
mod showing;
mod tables;

pub use answers::{Answers, agreed, disagreement};
pub use asking::{Answering, Line, RowAnswer, line_in};
pub use call::{Call, MapQuestion, Question};
pub use case::{Case, Table, number_of};
pub use judging::{Tally, Wrong, count_wrong, summary};
pub use showing::{counted, errors_in, first_in, list_in, shown_in, text_or_null, units_counted};
pub use tables::{column, list_at, number_at, push_all, text_at, texts_of, wanted_of, wrong_row};
