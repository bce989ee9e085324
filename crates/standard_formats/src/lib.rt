//! The assertions of `format`, `contentEncoding` and `contentMediaType`.
//!
//! If formats are checked, then `format` asserts that a text has the format with that name. Most
//! formats are checked by a grammar (`text_formats`). A text has the format `regex` if it can be
//! read as a pattern (`pattern_matcher`), and `idn-hostname` if it is an internationalized host name
//! (`idna`). A name that the draft does not define asserts nothing, but for `date`, `time` and
//! `regex`, which each draft checks.
//!
//! In draft 7 `contentEncoding` and `contentMediaType` assert that a text is base64, JSON, or JSON
//! in base64. Each keyword holds of an instance that is no text.
#![tactic(auto)]

mod contents;
mod idn_characters;
mod idn_contexts;
mod idn_hostnames;
mod keyword;
mod table;

pub use contents::{is_base64, is_json, is_json_in_base64};
pub use idn_hostnames::is_idn_hostname;
pub use keyword::FormatKeyword;
pub use table::FormatTable;
