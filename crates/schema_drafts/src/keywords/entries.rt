use crate::keywords::builtin::BuiltinKeyword;
use crate::keywords::vocabularies::Vocabulary;

/// How a draft interprets a keyword.
///
/// `Plain` is the usual meaning, `Draft4` the one that draft 4 defines. `Annotating` makes the
/// keyword an annotation, which asserts nothing.
#[derive(Clone, Copy, Debug, PartialEq, Eq, Hash)]
pub enum KeywordForm {
    Plain,
    Draft4,
    Annotating,
}

/// A keyword of the standard, in the form that a draft defines.
#[derive(Clone, Copy, Debug, PartialEq, Eq, Hash)]
pub struct BuiltinEntry {
    pub keyword: BuiltinKeyword,
    pub form: KeywordForm,
}

/// A row of the keyword table, for a draft that has the keyword.
///
/// It holds the keyword's entry, its priority, and whether it is a leaf: a keyword that looks at
/// the instance itself and applies no subschema.
#[derive(Clone, Copy, Debug, PartialEq, Eq, Hash)]
pub struct BuiltinRow {
    pub entry: BuiltinEntry,
    pub priority: u8,
    pub is_leaf: bool,
}

/// How a draft supports a keyword.
///
/// It names the vocabulary that the keyword needs, if any, and the keyword's form.
#[derive(Debug, Drop)]
pub struct Support {
    pub need: Option<Vocabulary>,
    pub form: KeywordForm,
}
