//! Clones of keywords of one of two types.
use crate::both::Both;
use schema_traits::CloneKeyword;

impl<A: CloneKeyword, B: CloneKeyword> CloneKeyword for Both<A, B> {
    ghost use Rattle.keyword_joins.specs.Clones.{cloned_alike};

    ghost cloned = { cloned_alike A.cloned B.cloned };
}
