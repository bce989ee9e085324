//! Drafts, vocabularies and the table of the standard's keywords.

pub mod builtin;
pub mod drafts;
pub mod entries;
pub mod keyword;
pub mod lookup;
pub mod nullability;
pub mod priorities;
pub mod vocabularies;

pub use builtin::BuiltinKeyword;
pub use drafts::Draft;
pub use entries::{BuiltinEntry, BuiltinRow, KeywordForm};
pub use keyword::Keyword;
pub use lookup::{builtin_row, get_for_draft, has_vocabulary};
pub use nullability::{NotNullable, Nullability, Nullable};
pub use priorities::{keyword_is_leaf, keyword_priority};
pub use vocabularies::{Vocabulary, VocabularySet};
