ghost use Rattle.std.specs.Prelude.{◌≡◌};
ghost use Rattle.theory_definitions.specs.Drafts.{ref_stands_alone};
ghost use Rattle.schema_drafts.specs.KeywordTable.{is_before_2019_09};
ghost use Rattle.schema_drafts.specs.KeywordViews.{draft_of};

/// A draft of the standard.
///
/// Drafts are ordered by age, the oldest first. `Unknown` is a draft that the standard does not
/// name. It is treated as 2020-12 and comes last in the order.
#[derive(Clone, Copy, Debug, PartialEq, Eq, PartialOrd, Ord, Hash)]
pub enum Draft {
    Draft4,
    Draft6,
    Draft7,
    Draft201909,
    Draft202012,
    Unknown,
}

impl Draft {
    /// Returns `true` for drafts 4, 6 and 7.
    ///
    /// They have no vocabularies, and in them a `$ref` overrides all its siblings.
    pub fn is_before_2019_09(self) -> bool
        ensures before { result ≡ is_before_2019_09 (draft_of self) }
        ensures alone { result ≡ ref_stands_alone (draft_of self) }
    {
        matches!(self, Draft::Draft4 | Draft::Draft6 | Draft::Draft7)
    }
}
