//! The keywords that apply schemas to items, or if a member is present.
//!
//! They are `contains` with `minContains` and `maxContains`, `dependentSchemas`, `dependencies`,
//! and `items` and `additionalItems` as they were before 2020-12. None of them matches a pattern.
//! The meaning of each is a definition of its own, and the module `meanings` states that the
//! keywords have these meanings. The module `table` has their table.
//!
//! Each evaluates an instance in one of the kinds that `keyword_authoring` offers, except for
//! `dependencies`: it reports errors of its own first, and then passes on the errors of its schemas
//! (`specs/Courses`).
#![tactic(auto)]

mod applicator;
mod beside;
mod cloning;
mod contains;
mod dependencies;
mod dependency_values;
mod dependents;
mod items;
mod limits;
mod meanings;
mod names;
mod table;
mod unexpected;
mod wants;

pub use applicator::StandardApplicator;
pub use contains::Contains;
pub use dependencies::turn_dependencies;
pub use dependents::turn_dependents;
pub use items::{turn_later_items, turn_listed_items};
pub use meanings::{
    contains_means, dependencies_mean, dependent_schemas_means, later_items_mean,
    listed_items_mean, no_later_items_means,
};
pub use names::Names;
pub use table::StandardApplicatorTable;
pub use unexpected::NoLaterItems;
pub use wants::{Want, Wants, has_unmet, tell_unmet};
