//! The basic keywords, such as `type`, `required`, `properties` and `items`.
//!
//! Each evaluates an instance in one of the kinds that `keyword_authoring` offers. The meaning of
//! each is a definition of its own, and the module `meanings` states that the keywords have these
//! meanings. The five that combine schemas take theirs, and their turns, from `schema_applicators`.
#![tactic(auto)]

mod cloning;
mod counts;
mod each;
mod keyword;
mod meanings;
mod names;
mod pattern;
mod properties;
mod property_names;
mod required;
mod table;
mod texts;
mod type_names;
mod types;

pub use counts::{CountKind, count_fits, count_text, members_count, push_decimal, tell_count};
pub use each::{turn_items, turn_prefix_items};
pub use keyword::{BasicKeyword, Shape};
pub use meanings::{
    counts_mean, items_mean, pattern_means, prefix_items_mean, properties_mean,
    property_names_mean, required_means, type_means,
};
pub use names::{Names, NamesRun};
pub use pattern::turn_pattern;
pub use properties::{asks_none, turn_properties};
pub use property_names::turn_property_names;
pub use required::{lacks_one, required_text, tell_required};
pub use table::BasicTable;
pub use table::keyword_values::{
    count_keyword, pattern_keyword, required_keyword, texts_of, type_keyword,
};
pub use table::schema_values::{is_older_list, items_before};
pub use texts::text_of;
pub use type_names::{TypeName, type_named, type_of, types_of};
pub use types::{fits_one, tell_type, tell_types, type_text, types_text};
