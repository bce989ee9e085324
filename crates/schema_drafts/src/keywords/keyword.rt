ghost use Rattle.std.specs.Prelude.{◌≡◌, Some, string_bytes};
ghost use Rattle.schema_drafts.specs.KeywordTable.{custom_name, name_text};
ghost use Rattle.schema_drafts.specs.KeywordViews.{keyword_seen};

use crate::keywords::builtin::BuiltinKeyword;
use std::fmt;

/// A keyword of the standard, or a custom keyword by name.
#[derive(Clone, Debug, PartialEq, Eq, Hash, Drop)]
pub enum Keyword {
    Builtin(BuiltinKeyword),
    Custom(String),
}

impl Keyword {
    /// Returns the custom keyword with this name.
    pub fn custom(name: String) -> Keyword
        ensures custom { keyword_seen result ≡ custom_name (string_bytes name) }
    {
        Keyword::Custom(name)
    }

    /// Returns the keyword's name, as written in schemas.
    pub fn as_str(&self) -> &str
        ensures name { result.now ≡ name_text (keyword_seen self.now) }
    {
        match self {
            Keyword::Builtin(keyword) => keyword.as_str(),
            Keyword::Custom(name) => name.as_str(),
        }
    }
}

impl From<BuiltinKeyword> for Keyword {
    ghost use Rattle.schema_drafts.specs.KeywordViews.{keyword_of_builtin};

    ghost from_gives = { λ keyword result. result ≡ keyword_of_builtin keyword };

    fn from(keyword: BuiltinKeyword) -> Keyword {
        Keyword::Builtin(keyword)
    }
}

impl fmt::Display for Keyword {
    ghost output = { λ keyword. Some (name_text (keyword_seen keyword)) };

    fn fmt<W: fmt::Write>(&self, f: &mut fmt::Formatter<W>) -> fmt::Result {
        f.write_str(self.as_str())
    }
}
