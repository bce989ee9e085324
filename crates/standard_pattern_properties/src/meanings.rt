//! The meanings of the keywords: each function states a law, and does nothing.

ghost use Rattle.std.specs.Prelude.{◌≡◌, ◌∷◌, [], codes};
ghost use Rattle.standard_pattern_properties.specs.GatedKeywords.{unexpected_text};
ghost use Rattle.standard_pattern_properties.specs.Meanings.{NamesLeftOver, NoOthersHold, OthersHold, PatternsHold};
ghost use Rattle.keyword_authoring.specs.MeaningWords.{Always};

/// `patternProperties` holds exactly if the schemas of its patterns accept.
///
/// The schema of a pattern must accept each member whose name the pattern matches.
pub fn pattern_properties_means()
    ensures holds { Always PatternsHold }
{}

/// `additionalProperties` holds exactly if each additional member is accepted.
///
/// A member is additional if its name is neither listed in `properties` nor matched by a pattern of
/// `patternProperties`.
pub fn additional_properties_means()
    ensures holds { Always OthersHold }
{}

/// `additionalProperties: false` holds exactly if no member is additional.
///
/// If it does not hold, it has one error, which shows the additional members' names in order.
pub fn no_additional_properties_means()
    ensures holds { Always NoOthersHold }
    ensures error { Always NamesLeftOver }
{}

/// The text of that error, for one additional member and for two.
pub fn unexpected_names()
    ensures one { unexpected_text (codes "a" ∷ []) ≡ codes "Additional properties are not allowed ('a' was unexpected)" }
    ensures two { unexpected_text (codes "a" ∷ codes "b" ∷ []) ≡ codes "Additional properties are not allowed ('a', 'b' were unexpected)" }
{}
