//! The keywords that apply schemas at the instance's own place.
//!
//! They are `allOf`, `anyOf`, `oneOf`, `not` and `if`. The meaning of each is a definition of its
//! own (`specs/AllOf`, `specs/AnyOf`, `specs/OneOf`, `specs/Not`, `specs/If`), and the module
//! `meanings` states that the keywords have these meanings. The module `table` has their table.
#![tactic(auto)]

mod all_of;
mod any_of;
mod applicator;
mod cloning;
mod meanings;
mod not;
mod one_of;
mod table;
mod texts;

pub use all_of::turn_all_of;
pub use any_of::turn_any_of;
pub use applicator::{Applicator, Shape};
pub use meanings::{all_of_means, any_of_means, if_means, not_means, one_of_means};
pub use not::turn_not;
pub use one_of::turn_one_of;
pub use table::ApplicatorTable;
pub use texts::none_text;
