//! Building blocks for keyword tables whose makers request paths one by one.
//!
//! Such a maker requests its children in turn, and then ends. The crate has the turns of these
//! makers (`maker`), paths below a keyword (`paths`), refusals (`refusals`), and tables whose
//! keywords depend on a member's name and value (`by_value`), or also on the draft and on the
//! neighbouring members (`by_object`).
#![tactic(auto)]

mod branches;
mod by_object;
mod by_value;
mod lists;
mod maker;
mod members;
mod paths;
mod refusals;

pub use branches::{Branches, branches_of};
pub use by_object::{MakesByObject, ObjectKeyword, TableByObject, maker_of};
pub use by_value::{Children, MakesByValue, MemberKeyword, TableByValue};
pub use lists::{each_schema, list_length};
pub use maker::{Ending, PathsMaker, asks_for, each_item, ends, only_child};
pub use members::{member_below, names_of, push_text, values_below, values_of};
pub use paths::{items_below, value_in, value_of};
pub use refusals::{makes_if, malformed, refused};
