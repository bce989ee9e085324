//! Laws of numbered nodes and of covers.
//!
//! Each function states laws in its contract, and does nothing when it runs.
#![tactic(auto)]

mod covers;
mod numbers;
mod paths;
mod rows;

pub use covers::{
    branches_differ, calls_agree, finishing_decides, members_are_apart, members_speak, nodes_speak,
    runs_are_counted, runs_are_made, runs_speak,
};
pub use numbers::{
    depths_agree, guarded_is_plain, guarded_runs_settle, guarded_sense_settles, guarded_settles,
    numbers_are_whole, numbers_have_units, numbers_mean, numbers_mean_plain,
    numbers_mean_unfolding, numbers_say_unfolding, runs_say_outcomes,
};
pub use paths::{errors_lead, given_errors_lead, node_errors_lead};
pub use rows::worked_rows;
