//! Matches that are requested at the keyword itself, one step below its place in the instance.
ghost use Rattle.std.specs.Prelude.{◌≡◌, string_bytes, true};
ghost use Rattle.theory_definitions.specs.Keywords.{match_text};
ghost use Rattle.schema_traits.specs.KeywordViews.{turn_of};
ghost use Rattle.test_laws.specs.OwnSpot.{is_plain, name_point};

use schema_traits::{Below, Spot, SpotMatch, Step};
use std::alloc::Global;

/// A match at the keyword itself, shown with evaluation path and place.
///
/// Its spot owns everything that it holds.
#[derive(Drop)]
pub struct OwnSpot {
    asked: SpotMatch<'static>,
    ghost plain: { is_plain asked ≡ true },
}

impl OwnSpot {
    /// Creates the match of this pattern.
    pub fn new(alloc: Global, pattern: String) -> OwnSpot
        ensures held { string_bytes result.asked.pattern ≡ string_bytes pattern }
    {
        let spot = Spot {
            absorbed: None,
            path: String::new(alloc),
            below: Vec::new(alloc),
            pattern: None,
        };
        OwnSpot {
            asked: SpotMatch {
                spot,
                pattern,
                located: true,
            },
        }
    }

    /// Asks whether the pattern matches the name of a member, at the name's place.
    ///
    /// The name is the instance's own.
    #[tactic(auto, using(crate::specs::OwnSpot::below_plain))]
    pub fn at_name<'s>(&'s self, name: &'s str) -> Step<'s>
        ensures step { turn_of result
            ≡ match_text (record { pattern = string_bytes self.now.asked.pattern; subject = name.now }) (name_point name.now) }
    {
        Step::MatchAt(&self.asked, name, Below::NameOf(name))
    }
}
