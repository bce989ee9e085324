//! Clones of the authoring types.
//!
//! An author's type declares that its clone has the shape of its source. The keyword that the
//! engine takes can then be cloned.
ghost use Rattle.std.specs.Prelude.{◌≡◌};

use crate::judge::{JudgeKeyword, Judged};
use crate::leaf::{Leaf, LeafKeyword};
use crate::leaves::{Telling, TellingKeyword};
use crate::own::{ByTurns, OwnKeyword};
use crate::planned::{Planned, PlannedKeyword};
use schema_traits::CloneKeyword;

/// A `LeafKeyword` that can be cloned. A clone has the shape of its source.
pub trait CloneLeaf: LeafKeyword + Clone {
    ghost cloned: { (m n : Self) → Self.is_clone m n → Self.shape n ≡ Self.shape m };
}

/// A `TellingKeyword` that can be cloned. A clone has the shape of its source.
pub trait CloneTelling: TellingKeyword + Clone {
    ghost cloned: { (m n : Self) → Self.is_clone m n → Self.shape n ≡ Self.shape m };
}

/// A `PlannedKeyword` that can be cloned. A clone has the shape of its source.
pub trait ClonePlanned: PlannedKeyword + Clone {
    ghost cloned: { (m n : Self) → Self.is_clone m n → Self.shape n ≡ Self.shape m };
}

/// A `JudgeKeyword` that can be cloned. A clone has the shape of its source.
pub trait CloneJudge: JudgeKeyword + Clone {
    ghost cloned: { (m n : Self) → Self.is_clone m n → Self.shape n ≡ Self.shape m };
}

/// An `OwnKeyword` that can be cloned. A clone has the shape of its source.
pub trait CloneOwn: OwnKeyword + Clone {
    ghost cloned: { (m n : Self) → Self.is_clone m n → Self.shape n ≡ Self.shape m };
}

impl<L: CloneLeaf> CloneKeyword for Leaf<L> {
    ghost cloned = { λ m n same. L.cloned m.keyword n.keyword same };
}

impl<T: CloneTelling> CloneKeyword for Telling<T> {
    ghost cloned = { λ m n same. T.cloned m.keyword n.keyword same };
}

impl<P: ClonePlanned> CloneKeyword for Planned<P> {
    ghost cloned = { λ m n same. P.cloned m.keyword n.keyword same };
}

impl<J: CloneJudge> CloneKeyword for Judged<J> {
    ghost cloned = { λ m n same. J.cloned m.keyword n.keyword same };
}

impl<K: CloneOwn> CloneKeyword for ByTurns<K> {
    ghost cloned = { λ m n same. K.cloned m.keyword n.keyword same };
}
