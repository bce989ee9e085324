//! Compiles a schema into numbered nodes, one for each key that it reaches.
#![tactic(auto)]

mod agreeing;
mod compiler;
mod ref_;
mod rows;

pub use agreeing::{
    keys_are_found_in_one_order, numbers_are_settled_by_edges, tables_agree,
    targets_nest_within_the_limit,
};
pub use compiler::compilation::{Compilation, Progress};
pub use compiler::reservations::{Reservation, Reservations, ReservedNode};
pub use compiler::setup::Compiler;
pub use compiler::{check_vocabularies, compile, compile_subschema};
pub use rows::guarded_rows;
