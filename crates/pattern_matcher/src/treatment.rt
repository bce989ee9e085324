//! What a matcher does with the patterns that it cannot always decide.
ghost use Rattle.std.specs.Prelude.{◌≡◌};
ghost use Rattle.unfinished_matches.specs.MatchViews.{match_of};
ghost use Rattle.pattern_matcher.specs.PatternMatching.{finishes_each, unreadable_match};

use unfinished_matches::{Match, Reason};

/// The answer for a text that cannot be read as a pattern.
#[derive(Clone, Copy)]
pub enum Unreadable {
    /// Leaves each match of the text unfinished.
    ///
    /// The engine then reports that the pattern failed, if the result depends on it.
    LeftUnfinished,
    /// Lets the text match nothing, so every match is finished.
    ///
    /// Use this if the schema's table refuses unreadable patterns.
    MatchesNothing,
}

impl Unreadable {
    /// Returns the answer for an unreadable pattern.
    pub fn answer(self) -> Match
        ensures answer { match_of result ≡ unreadable_match self }
    {
        match self {
            Unreadable::LeftUnfinished => Match::Unfinished(Reason::Engine),
            Unreadable::MatchesNothing => Match::Finished(false),
        }
    }
}

/// What a matcher does with the patterns that it cannot always decide.
#[derive(Clone, Copy)]
pub struct Treatment {
    /// What it answers for a text that cannot be read as a pattern.
    pub unreadable: Unreadable,
    /// How many steps a match of a pattern with a back reference may take, if there is a limit.
    ///
    /// Past the limit the match is left unfinished.
    pub limit: Option<u64>,
}

impl Treatment {
    /// Returns whether every match is finished.
    pub fn finishes(self) -> bool
        ensures finishes { result ≡ finishes_each self }
    {
        match self.unreadable {
            Unreadable::LeftUnfinished => false,
            Unreadable::MatchesNothing => self.limit.is_none(),
        }
    }
}
