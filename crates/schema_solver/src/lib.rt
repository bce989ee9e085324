//! Finds the verdict of numbered nodes over an instance.
//!
//! If chains of references return to a number, or meet at it, the solver begins that number at each
//! place at most as often as there are numbers.
#![tactic(auto)]

mod eligible;
mod monotone;
mod question;
mod solve;
mod told;

pub use eligible::{SolvedVerdict, Solver};
pub use monotone::is_monotone;
pub use question::{Asked, SolverEngine, Stopped};
pub use solve::solve_root;
