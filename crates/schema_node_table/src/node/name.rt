//! Names of keywords.
ghost use Rattle.std.specs.Prelude.{◌≡◌, string_bytes};
ghost use Rattle.schema_drafts.specs.KeywordViews.{builtin_text};
ghost use Rattle.schema_traits.specs.Showing.{Yields};

use schema_drafts::BuiltinKeyword;
use schema_reports::OutOfMemory;
use std::alloc::AllocError;
use std::marker::Model;

// A standard keyword's name, or a copy of a name that a schema uses.
#[derive(Drop)]
enum NameText {
    Known(BuiltinKeyword),
    Copied(String),
}

/// The name of a keyword.
///
/// A name of the standard takes no memory. Contracts see the text.
#[derive(Drop)]
pub struct KeywordName {
    text: NameText,
}

impl Model for KeywordName {
    ghost use Rattle.theory_definitions.specs.Instance.{Text};
    ghost use Rattle.schema_node_table.specs.Names.{text_of};

    ghost Value = { Text };

    ghost view = { λ n. text_of n.text };
}

impl KeywordName {
    /// Returns the name of a keyword of the standard. Does not allocate.
    pub fn known(keyword: BuiltinKeyword) -> KeywordName
        ensures name { result ≡ builtin_text keyword }
    {
        KeywordName {
            text: NameText::Known(keyword),
        }
    }

    /// Returns a copy of a name.
    ///
    /// # Errors
    ///
    /// Out of memory.
    pub fn copied(text: &String) -> Result<KeywordName, OutOfMemory>
        ensures name { Yields result (string_bytes text.now) }
    {
        Ok(KeywordName {
            text: NameText::Copied(text.clone()?),
        })
    }

    /// Returns the text of the name. Does not allocate.
    pub fn as_str(&self) -> &str
        ensures name { result.now ≡ self.now }
    {
        match &self.text {
            NameText::Known(keyword) => keyword.as_str(),
            NameText::Copied(text) => text.as_str(),
        }
    }
}

impl Clone for KeywordName {
    ghost is_clone = { λ n copy. copy ≡ n };

    fn clone(&self) -> Result<KeywordName, AllocError> {
        let text = match &self.text {
            NameText::Known(keyword) => NameText::Known(*keyword),
            NameText::Copied(text) => NameText::Copied(text.clone()?),
        };
        Ok(KeywordName { text })
    }
}
