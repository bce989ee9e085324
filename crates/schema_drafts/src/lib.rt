//! Drafts, vocabularies and the table of the standard's keywords.
#![tactic(auto)]

mod keywords;

pub use keywords::builtin::{BUILTIN_KEYWORDS, BuiltinKeyword};
pub use keywords::drafts::Draft;
pub use keywords::entries::{BuiltinEntry, BuiltinRow, KeywordForm, Support};
pub use keywords::keyword::Keyword;
pub use keywords::lookup::{builtin_row, get_for_draft, has_vocabulary};
pub use keywords::nullability::{NotNullable, Nullability, Nullable};
pub use keywords::priorities::{
    CUSTOM_PRIORITY, REF_PRIORITY, keyword_is_leaf, keyword_priority, keyword_table_facts,
};
pub use keywords::vocabularies::{Vocabulary, VocabularySet};
