//! Keyword types that keep the laws, as a test of the laws.
//!
//! - `refusing`: the run has no state at all.
//! - `each_item`: the run counts what is left of a length that it stores at the beginning.
//! - `both_once`: the run marks its children, and skips one that is marked already.
//! - `in_vain`: the run asks its child and drops the reply.
//! - `each_name`: the run requests matches at the names of an object's members.
//! - `items`: the run marks a number that its maker was given.
//!
//! The crate also has a table, `printing_table`, that refuses with the text of a value that may
//! contain a fraction.
#![tactic(auto)]

mod both_once;
mod each_item;
mod each_name;
mod in_vain;
mod items;
mod items_table;
mod marking;
mod own_spot;
mod printing_table;
mod refusals;
mod refusing;

pub use both_once::BothOnce;
pub use each_item::EachItem;
pub use each_name::{EachName, EachNameShape};
pub use in_vain::InVain;
pub use items::{ItemsKeyword, ItemsPlan};
pub use items_table::{ItemsMaker, ItemsTable};
pub use marking::{after_step, first_stage};
pub use own_spot::OwnSpot;
pub use printing_table::{PrintingMaker, PrintingTable};
pub use refusals::tell;
pub use refusing::Refusing;
