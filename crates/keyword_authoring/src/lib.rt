//! Building blocks for keywords.
//!
//! An author says how a keyword evaluates an instance, and its laws follow.
//!
//! There are five kinds of keywords: a keyword reports errors of its own, or passes on what its
//! children answer, or judges by how many children accept, or branches by the verdict of one child,
//! or asks whether a pattern matches.
//!
//! An author's type implements one of these traits, and a wrapper turns it into what the engine
//! takes, with all laws:
//!
//! - `PlannedKeyword`, with the wrapper `Planned`, returns a plan for each instance;
//! - `LeafKeyword` and `TellingKeyword`, with `Leaf` and `Telling`, ask nothing, and say when they
//!   accept;
//! - `JudgeKeyword`, with `Judged`, accepts depending on the number of its accepted questions;
//! - `OwnKeyword`, with `ByTurns`, specifies its kind (`specs/Ways`) and takes its own turns.
//!
//! The turns of a leaf and of a judge are `turn_leaf` and `turn_judge`. The turns of the other
//! kinds are taken by `onward` or `next_number`, by `branch_on` or by `match_on`, whose clauses
//! name the kind. `note` adds an error of the keyword itself, and `refuse` is enough if only the
//! verdict is wanted. `specs/Places` has lemmas for questions that are asked at places that exist.
//!
//! A type that implements `Validate` itself names the kind of each of its keywords, which
//! determines their meaning (`words_of`, in `specs/WayWords`). Their laws are `turn_laws` and
//! `function_laws` (`specs/WayLaws`). Two facts remain to be shown: that the questions do not
//! depend on texts, and that each is asked at a place that exists.
#![tactic(auto)]

mod answers;
mod branching;
mod cloning;
mod items;
mod judge;
mod judging;
mod leaf;
mod leaves;
mod matching;
mod members;
mod own;
mod passing;
mod planned;
mod run;
mod telling;
mod texts;
mod units;

pub use answers::{goes_on, note, refuse, says_yes, take};
pub use branching::branch_on;
pub use cloning::{CloneJudge, CloneLeaf, CloneOwn, ClonePlanned, CloneTelling};
pub use items::{is_list, item_count, items_of};
pub use judge::{JudgeKeyword, Judged, turn_judge};
pub use judging::{Judge, Judging, judge_children, judge_on};
pub use leaf::{Leaf, LeafKeyword, turn_leaf};
pub use leaves::{Telling, TellingKeyword, turn_telling};
pub use matching::{MatchTurn, ask_match, match_on};
pub use members::{has_member, is_object, member_count, members_of, name_at};
pub use own::{ByTurns, OwnKeyword};
pub use passing::{ask_here, next_number, onward};
pub use planned::{Asks, Plan, Planned, PlannedKeyword};
pub use run::{Progress, Stage};
pub use telling::tell_on;
pub use texts::as_text;
