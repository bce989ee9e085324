//! The state of a solver.
//!
//! It is what is known of pairs of a node and a place, and which numbers the solver inlines.
#![tactic(auto)]

mod context;
mod followed;
mod pair;
mod said;
pub(crate) mod weights;

pub use context::SolverContext;
pub use followed::{Followed, MOST_NODES};
pub use pair::SolverPair;
pub use said::Said;
