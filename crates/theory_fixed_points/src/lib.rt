//! Laws of greatest solutions and of solvers.
//!
//! If every keyword is monotone, what numbered nodes say under guards is the greatest solution: the
//! largest set of pairs of a target and a place that stands by itself, which means that each pair
//! of the set accepts, given that exactly the pairs of the set accept. A solver that works by
//! stages finds what the nodes say, whether keywords are monotone or not. Each function states laws
//! in its contract, and does nothing when it runs.
#![tactic(auto)]

mod cycle_rows;
mod rows;
mod solutions;

pub use cycle_rows::worked_cycle_rows;
pub use rows::worked_rows;
pub use solutions::{
    calls_say_greatest, nodes_say_greatest, numbers_are_monotone, numbers_say_greatest,
    reached_say_greatest, solver_says,
};
