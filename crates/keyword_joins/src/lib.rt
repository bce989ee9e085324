//! Joins of two keyword types, and of two keyword tables.
//!
//! Tables are joined by a list of names (`table`), or by a route that decides for each keyword of
//! the standard, draft by draft (`routed`). A join keeps the laws that each of the two keeps.
#![tactic(auto)]

mod both;
mod cloning;
mod routed;
mod table;

pub use both::Both;
pub use routed::{Route, RoutedTables};
pub use table::BothTable;
